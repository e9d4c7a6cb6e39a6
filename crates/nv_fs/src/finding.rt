// Which descriptors, open files, files and pipes are in use.
ghost use Rattle.std.specs.Prelude.{◌≡◌, ◌<◌, ◌≤◌, length, is_none, IfSome, slice_index_or, None};
ghost use Rattle.std.specs.List.{position_from, list_any};
ghost use Rattle.nv_fs.specs.States.{numbered, open_of, opens_to, has_open, is_numbered, is_shared, is_kept, is_pipe, free_open};
ghost use Rattle.nv_fs.specs.Closes.{free_descriptor};
ghost use Rattle.nv_fs.specs.Opened.{free_file};
ghost use Rattle.nv_fs.specs.Ends.{free_pipe};

use crate::disk::FileSystem;
use crate::open_file::{OpenFile, Target};

// The open file of a number, with the number.
fn numbered(opens: &[OpenFile], number: Option<usize>) -> Option<(usize, OpenFile)>
    ensures is { result ≡ numbered opens.now number }
    ensures inside { IfSome result (λ o. o.0 < length opens.now) }
{
    match number {
        Some(i) if i < opens.len() => Some((i, opens[i])),
        _ => None,
    }
}

fn slot(descriptors: &[Option<usize>], fd: usize) -> Option<usize>
    ensures is { result ≡ slice_index_or descriptors.now fd None }
    ensures inside { IfSome result (λ _. fd < length descriptors.now) }
{
    if fd < descriptors.len() {
        descriptors[fd]
    } else {
        None
    }
}

// The first free one.
pub fn first_free(descriptors: &[Option<usize>]) -> Option<usize>
    ensures is { result ≡ position_from is_none 0 descriptors.now }
    ensures inside { IfSome result (λ fd. fd < length descriptors.now) }
{
    descriptors.iter().position(|number| number.is_none())
}

fn opens_to(opens: &[OpenFile], number: Option<usize>, target: Target) -> bool
    ensures { result ≡ opens_to target (numbered opens.now number) }
{
    match numbered(opens, number) {
        Some((_, description)) => target.is(description.target),
        None => false,
    }
}

fn any_opens(descriptors: &[Option<usize>], opens: &[OpenFile], target: Target) -> bool
    ensures { result ≡ list_any (λ d. opens_to target (numbered opens.now d)) descriptors.now }
{
    descriptors
        .iter()
        .any(|number| opens_to(opens, *number, target))
}

fn is_numbered(number: Option<usize>, i: usize) -> bool
    ensures { result ≡ is_numbered i number }
{
    match number {
        Some(j) => j == i,
        None => false,
    }
}

fn any_is(descriptors: &[Option<usize>], i: usize) -> bool
    ensures { result ≡ list_any (is_numbered i) descriptors.now }
{
    descriptors.iter().any(|number| is_numbered(*number, i))
}

#[tactic(auto, unfolding(crate::specs::States::open_of, crate::specs::States::has_open, crate::specs::States::is_shared, crate::specs::States::is_kept, crate::specs::States::is_pipe, crate::specs::Closes::free_descriptor))]
impl FileSystem {
    /// The open file of a descriptor, with its number.
    pub(crate) fn open_of(&self, fd: u32) -> Option<(usize, OpenFile)>
        ensures is { result ≡ open_of self.now.state fd }
        ensures inside { IfSome result (λ o. o.0 < length self.now.state.opens) }
        ensures below { IfSome result (λ _. fd < 64) }
    {
        let number = slot(&self.descriptors, fd as usize)?;
        numbered(&self.opens, Some(number))
    }

    /// The least descriptor that isn't open.
    pub(crate) fn free_descriptor(&self) -> Option<usize>
        ensures is { result ≡ free_descriptor self.now.state }
        ensures inside { IfSome result (λ fd. fd < 64) }
    {
        first_free(&self.descriptors)
    }

    /// Whether some descriptor's open file is of the target.
    pub(crate) fn has_open(&self, target: Target) -> bool
        ensures { result ≡ has_open self.now.state target }
    {
        any_opens(&self.descriptors, &self.opens, target)
    }

    fn is_shared(&self, i: usize) -> bool
        ensures { result ≡ is_shared self.now.state i }
    {
        any_is(&self.descriptors, i)
    }

    fn is_kept(&self, i: usize) -> bool
        ensures { result ≡ is_kept self.now.state i }
    {
        self.has_name(i) || self.has_open(Target::File(i))
    }

    fn is_pipe(&self, k: usize) -> bool
        ensures { result ≡ is_pipe self.now.state k }
    {
        self.has_open(Target::Reader(k)) || self.has_open(Target::Writer(k))
    }

    /// The least number for an open file.
    pub(crate) fn free_open(&self) -> usize
        ensures is { result ≡ free_open self.now.state }
        ensures inside { result ≤ length self.now.state.opens }
    {
        for i in 0..self.opens.as_slice().len() {
            if !self.is_shared(i) {
                return i;
            }
        }
        self.opens.as_slice().len()
    }

    /// The least number for a file.
    pub(crate) fn free_file(&self) -> usize
        ensures is { result ≡ free_file self.now.state }
        ensures inside { result ≤ length self.now.state.files }
    {
        for i in 0..self.files.as_slice().len() {
            if !self.is_kept(i) {
                return i;
            }
        }
        self.files.as_slice().len()
    }

    /// The least number for a pipe.
    pub(crate) fn free_pipe(&self) -> usize
        ensures is { result ≡ free_pipe self.now.state }
        ensures inside { result ≤ length self.now.state.pipes }
    {
        for k in 0..self.pipes.as_slice().len() {
            if !self.is_pipe(k) {
                return k;
            }
        }
        self.pipes.as_slice().len()
    }
}
