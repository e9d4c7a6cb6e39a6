// Input that comes while a run goes on.
ghost use Rattle.std.specs.Prelude.{◌≡◌, ◌+◌, ◌≤◌, ◌&&◌, ◌==◌, ◌++◌, length, vec_len, vec_capacity, OnOk};
ghost use Rattle.nv_fs.specs.Waits.{is_input, reads_input, waits_on_input};

use crate::disk::FileSystem;
use crate::open_file::{OpenFile, Target};
use std::alloc::AllocError;

fn is_input(target: Target) -> bool
    ensures { result ≡ is_input target }
{
    match target {
        Target::Input => true,
        Target::Console | Target::File(_) | Target::Reader(_) | Target::Writer(_) => false,
    }
}

pub(crate) fn reads_input(found: Option<(usize, OpenFile)>) -> bool
    ensures { result ≡ reads_input found }
{
    match found {
        Some((_, description)) => description.reads && is_input(description.target),
        None => false,
    }
}

// Adds bytes for which there is memory.
fn add(held: &mut Vec<u8>, bytes: &[u8])
    requires { vec_len held.old + length bytes.now ≤ vec_capacity held.old }
    ensures items { held.new.items ≡ held.old.items ++ bytes.now }
    ensures capacity { vec_capacity held.old ≤ vec_capacity held.new }
{
    match held.extend_from_slice(bytes) {
        Ok(()) => {}
        Err(_) => unreachable!(),
    }
}

#[tactic(auto, unfolding(crate::specs::Waits::waits_on_input))]
impl FileSystem {
    // Nothing is left of the input.
    pub(crate) fn is_read(&self) -> bool
        ensures { result ≡ (length self.now.state.input == 0) }
    {
        self.taken >= self.input.as_slice().len()
    }

    /// Whether the descriptor reads the input, of which nothing is left.
    pub fn waits_on_input(&self, fd: u32) -> bool
        ensures { result ≡ waits_on_input self.now.state fd }
    {
        let found = self.open_of(fd);
        reads_input(found) && self.is_read()
    }

    // What was read is given up.
    fn give_up(&mut self)
        ensures state { self.new.state ≡ self.old.state }
        ensures reserved { self.new.reserved ≡ record self.old.reserved { input = self.new.reserved.input } }
        ensures gone { self.new.gone ≡ self.old.gone }
    {
        if self.taken >= self.input.as_slice().len() {
            self.input.clear();
            self.taken = 0;
        }
    }

    /// Memory for so many bytes more of the input.
    pub fn reserve_input(&mut self, count: usize) -> Result<(), AllocError>
        ensures state { self.new.state ≡ self.old.state }
        ensures reserved { self.new.reserved ≡ record self.old.reserved { input = self.new.reserved.input } }
        ensures ok { OnOk result (length self.new.state.input + count ≤ self.new.reserved.input) }
        ensures gone { self.new.gone ≡ self.old.gone }
    {
        self.give_up();
        self.input.reserve(count)
    }

    /// More of the input has come.
    pub fn take_in(&mut self, bytes: &[u8])
        requires { length self.old.state.input + length bytes.now ≤ self.old.reserved.input }
        ensures state { self.new.state ≡ record self.old.state { input = self.old.state.input ++ bytes.now } }
        ensures reserved { self.new.reserved ≡ record self.old.reserved { input = self.new.reserved.input } }
        ensures room { self.old.reserved.input ≤ self.new.reserved.input }
        ensures gone { self.new.gone ≡ self.old.gone }
    {
        add(&mut self.input, bytes);
    }
}
