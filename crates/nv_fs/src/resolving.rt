// How a path names a file.
ghost use Rattle.std.specs.Prelude.{◌≡◌, ◌==◌, ◌<◌, ◌≤◌, not, length, IfSome, IfOk, MatchResult};
ghost use Rattle.std.specs.List.{position_from, position_or_len, list_any, before_first};
ghost use Rattle.std.specs.Str.{bytes_eq};
ghost use Rattle.nv_fs.specs.Names.{Named, Refused, is_absolute, is_cwd, is_open_at, is_named, name_in, file_of, component_of, name_of, resolved};
ghost use Rattle.nv_fs.specs.Views.{inode_of};

use crate::disk::{FileSystem, MemoryFile};
use nv_calls::MOST_PATH;
use nv_calls::errors::{EBADF, EINVAL, ENAMETOOLONG, ENOENT, ENOTDIR};

/// The number that stands for the working directory (openat(2)).
const AT_FDCWD: i32 = -100;

const SLASH: u8 = b'/';

fn is_absolute(path: &[u8]) -> bool
    ensures { result ≡ is_absolute path.now }
{
    match path {
        [] => false,
        [first, ..] => *first == SLASH,
    }
}

fn is_cwd(dir: i32) -> bool
    ensures { result ≡ is_cwd dir }
{
    dir == AT_FDCWD
}

fn slashes(path: &[u8]) -> usize
    ensures is { result ≡ position_or_len (λ b. not (b == 47)) path.now }
    ensures inside { result ≤ length path.now }
{
    path.iter().position(|b| *b != SLASH).unwrap_or(path.len())
}

// The path without its leading slashes.
fn name_in(path: &[u8]) -> &[u8]
    ensures is { result.now ≡ name_in path.now }
    ensures short { length result.now ≤ length path.now }
{
    &path[slashes(path)..]
}

fn before_slash(name: &[u8]) -> usize
    ensures is { result ≡ position_or_len (λ b. b == 47) name.now }
    ensures inside { result ≤ length name.now }
{
    name.iter().position(|b| *b == SLASH).unwrap_or(name.len())
}

fn first_part(name: &[u8]) -> &[u8]
    ensures { result.now ≡ before_first (λ b. b == 47) name.now }
{
    &name[..before_slash(name)]
}

fn has_slash(name: &[u8]) -> bool
    ensures { result ≡ list_any (λ b. b == 47) name.now }
{
    name.iter().any(|b| *b == SLASH)
}

fn is_same(a: &[u8], b: &[u8]) -> bool
    ensures { result ≡ bytes_eq a.now b.now }
{
    a == b
}

fn is_named(file: &MemoryFile, name: &[u8]) -> bool
    ensures { result ≡ is_named name.now (inode_of file.now).name }
{
    match &file.name {
        Some(other) => is_same(other.as_slice(), name),
        None => false,
    }
}

fn position(files: &[MemoryFile], name: &[u8]) -> Option<usize>
    ensures is { result ≡ position_from (λ f. is_named name.now (inode_of f).name) 0 files.now }
    ensures inside { IfSome result (λ i. i < length files.now) }
{
    files.iter().position(|file| is_named(file, name))
}

fn component(name: &[u8]) -> Result<&[u8], i32>
    ensures is { MatchResult result (λ found. component_of name.now ≡ Named found.now) (λ error. component_of name.now ≡ Refused error) }
    ensures short { IfOk result (λ found. length found.now ≤ length name.now) }
{
    if name.len() == 0 || is_same(name, b".") || is_same(name, b"..") {
        Err(EINVAL)
    } else {
        Ok(name)
    }
}

#[tactic(auto, unfolding(crate::specs::Names::resolved, crate::specs::Names::file_of))]
impl FileSystem {
    fn is_open_at(&self, dir: i32) -> bool
        ensures { result ≡ is_open_at self.now.state dir }
    {
        dir >= 0 && self.has(dir as u32)
    }

    /// The file of a name.
    pub(crate) fn file_of(&self, name: &[u8]) -> Option<usize>
        ensures { result ≡ file_of self.now.state name.now }
    {
        position(self.files.as_slice(), name)
    }

    fn name_of<'a>(&self, name: &'a [u8]) -> Result<&'a [u8], i32>
        ensures is { MatchResult result (λ found. name_of self.now.state name.now ≡ Named found.now) (λ error. name_of self.now.state name.now ≡ Refused error) }
        ensures short { IfOk result (λ found. length found.now ≤ length name.now) }
    {
        if has_slash(name) {
            return Err(if self.file_of(first_part(name)).is_some() {
                ENOTDIR
            } else {
                ENOENT
            });
        }
        component(name)
    }

    /// The name in a path, or why it is refused.
    pub(crate) fn resolve<'a>(&self, dir: i32, path: &'a [u8]) -> Result<&'a [u8], i32>
        ensures is { MatchResult result (λ found. resolved self.now.state dir path.now ≡ Named found.now) (λ error. resolved self.now.state dir path.now ≡ Refused error) }
        ensures short { IfOk result (λ found. length found.now ≤ length path.now) }
    {
        if path.len() >= MOST_PATH {
            return Err(ENAMETOOLONG);
        }
        if path.len() == 0 {
            return Err(ENOENT);
        }
        if !is_absolute(path) && !is_cwd(dir) {
            return Err(if self.is_open_at(dir) { ENOTDIR } else { EBADF });
        }
        self.name_of(name_in(path))
    }
}
