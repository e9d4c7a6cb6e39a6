// openat and unlinkat.
ghost use Rattle.std.specs.Prelude.{◌≡◌, ◌+◌, ◌≤◌, ◌<◌, [], None, length, OnOk, vec_capacity};
ghost use Rattle.nv_calls.specs.Answer.{answer};
ghost use Rattle.nv_fs.specs.States.{with_at};
ghost use Rattle.nv_fs.specs.Opened.{open_at_of, unlink_at_of, opened, has_flag, truncated, with_file, create, exclusive_error, open_file, open_at_descriptor, open_unless, unlinked};
ghost use Rattle.nv_fs.specs.Stored.{with_content};
ghost use Rattle.nv_fs.specs.Kept.{KeepsBlocks};
ghost use Rattle.nv_fs.specs.Reserved.{CanOpen, HasOpens};

use crate::Blocks;
use crate::disk::{FileSystem, MemoryFile};
use crate::open_file::{OpenFile, Target};
use crate::parts::append;
use nv_calls::errors::{EEXIST, EINVAL, EMFILE, ENOENT, ENOSPC};
use std::alloc::AllocError;
use std::mem;

const O_CREAT: u32 = 64;

const O_EXCL: u32 = 128;

const O_TRUNC: u32 = 512;

const O_APPEND: u32 = 1024;

/// How many files there are at most.
const FILES: usize = 256;

fn has_flag(flags: u32, flag: u32) -> bool
    ensures { result ≡ has_flag flags flag }
{
    flags & flag != 0
}

fn opened(i: usize, flags: u32) -> OpenFile
    ensures { result ≡ opened i flags }
{
    OpenFile {
        target: Target::File(i),
        offset: 0,
        reads: flags % 4 != 1,
        writes: flags % 4 != 0,
        appends: has_flag(flags, O_APPEND),
    }
}

// Why a name isn't opened, by whether there is a file of it.
fn refusal(file: Option<usize>, flags: u32) -> Option<i32>
    ensures { result ≡ exclusive_error file flags }
{
    match file {
        Some(_) if has_flag(flags, O_CREAT) && has_flag(flags, O_EXCL) => Some(EEXIST),
        None if !has_flag(flags, O_CREAT) => Some(ENOENT),
        _ => None,
    }
}

fn forget_name(file: &mut MemoryFile)
    ensures { file.new ≡ record file.old { name = None } }
{
    file.name = None;
}

fn put_file(files: &mut Vec<MemoryFile>, i: usize, file: MemoryFile)
    requires inside { i ≤ length files.old.items }
    requires reserved { length files.old.items < vec_capacity files.old }
    ensures { files.new.items ≡ with_at files.old.items i file }
{
    if i < files.as_slice().len() {
        files[i] = file;
        return;
    }
    match files.push(file) {
        Ok(()) => {}
        Err(_) => unreachable!(),
    }
}

#[tactic(auto, unfolding(crate::specs::Opened::open_at_of, crate::specs::Opened::unlink_at_of))]
impl FileSystem {
    // Empties a file that is opened for writing, where the flags say so.
    fn truncate(&mut self, i: usize, flags: u32)
        ensures state { self.new.state ≡ truncated self.old.state i flags }
        ensures reserved { self.new.reserved.opens ≡ self.old.reserved.opens }
        ensures gone { self.new.gone ≡ self.old.gone }
    {
        if has_flag(flags, O_TRUNC) && flags % 4 != 0 {
            self.empty(i);
        }
    }

    fn empty(&mut self, i: usize)
        ensures state { self.new.state ≡ with_content self.old.state i [] }
        ensures reserved { self.new.reserved.opens ≡ self.old.reserved.opens }
        ensures gone { self.new.gone ≡ self.old.gone }
    {
        if i < self.files.as_slice().len() {
            self.files[i].bytes.clear();
        }
    }

    // The name that is held, as a text of its own.
    fn take_name(&mut self, name: &[u8]) -> Vec<u8>
        requires { length name.now ≤ self.old.reserved.name }
        ensures name { result.items ≡ name.now }
        ensures state { self.new.state ≡ self.old.state }
        ensures opens { self.new.reserved.opens ≡ self.old.reserved.opens }
        ensures files { self.new.reserved.files ≡ self.old.reserved.files }
        ensures gone { self.new.gone ≡ self.old.gone }
    {
        let mut held = mem::replace(&mut self.name, Vec::new(self.alloc));
        held.clear();
        append(&mut held, name);
        held
    }

    fn make_file(&mut self, i: usize, name: Vec<u8>)
        requires inside { i ≤ length self.old.state.files }
        requires reserved { length self.old.state.files + 1 ≤ self.old.reserved.files }
        ensures state { self.new.state ≡ with_file self.old.state i name.items }
        ensures reserved { self.new.reserved.opens ≡ self.old.reserved.opens }
        ensures gone { self.new.gone ≡ self.old.gone }
    {
        let file = MemoryFile {
            name: Some(name),
            bytes: Blocks::make(self.alloc),
        };
        put_file(&mut self.files, i, file);
    }

    fn open_file(&mut self, fd: usize, i: usize, flags: u32) -> i32
        requires fd { fd < 64 }
        requires reserved { HasOpens self.old 1 }
        ensures answer { open_file self.old.state fd i flags ≡ answer self.new.state result [] }
        ensures gone { self.new.gone ≡ self.old.gone }
    {
        self.install(fd, opened(i, flags));
        fd as i32
    }

    fn create(&mut self, fd: usize, name: &[u8], flags: u32) -> i32
        requires fd { fd < 64 }
        requires ready { CanOpen self.old name.now }
        ensures answer { create self.old.state fd name.now flags ≡ answer self.new.state result [] }
        ensures gone { self.new.gone ≡ self.old.gone }
    {
        let i = self.free_file();
        if i >= FILES {
            return ENOSPC;
        }
        let name = self.take_name(name);
        self.make_file(i, name);
        self.open_file(fd, i, flags)
    }

    fn open_at_descriptor(&mut self, fd: usize, name: &[u8], file: Option<usize>, flags: u32) -> i32
        requires fd { fd < 64 }
        requires ready { CanOpen self.old name.now }
        ensures answer { open_at_descriptor self.old.state (Some fd) name.now file flags ≡ answer self.new.state result [] }
        ensures gone { self.new.gone ≡ self.old.gone }
    {
        match file {
            None => self.create(fd, name, flags),
            Some(i) => {
                self.truncate(i, flags);
                self.open_file(fd, i, flags)
            }
        }
    }

    fn open_named(&mut self, name: &[u8], file: Option<usize>, flags: u32) -> i32
        requires ready { CanOpen self.old name.now }
        ensures answer { open_unless (exclusive_error file flags) self.old.state name.now file flags ≡ answer self.new.state result [] }
        ensures gone { self.new.gone ≡ self.old.gone }
    {
        if let Some(error) = refusal(file, flags) {
            return error;
        }
        let Some(fd) = self.free_descriptor() else {
            return EMFILE;
        };
        self.open_at_descriptor(fd, name, file, flags)
    }

    /// openat(2), in the directory `/`.
    pub fn open_at(&mut self, dir: i32, path: &[u8], flags: u32) -> i32
        requires { CanOpen self.old path.now }
        ensures answer { open_at_of self.old.state dir path.now flags ≡ answer self.new.state result [] }
        ensures gone { self.new.gone ≡ self.old.gone }
    {
        let name = match self.resolve(dir, path) {
            Ok(name) => name,
            Err(error) => return error,
        };
        if flags % 4 == 3 {
            return EINVAL;
        }
        let file = self.file_of(name);
        self.open_named(name, file, flags)
    }

    /// Memory for `open_at` with these arguments.
    pub fn reserve_path(&mut self, _dir: i32, path: &[u8], _flags: u32) -> Result<(), AllocError>
        ensures state { self.new.state ≡ self.old.state }
        ensures ready { OnOk result (CanOpen self.new path.now) }
        ensures others { KeepsBlocks self.old self.new }
        ensures gone { self.new.gone ≡ self.old.gone }
    {
        self.opens.reserve(1)?;
        self.files.reserve(1)?;
        self.name.clear();
        self.name.reserve(path.len())?;
        Ok(())
    }

    fn unlink(&mut self, i: usize)
        ensures state { self.new.state ≡ unlinked self.old.state i }
        ensures gone { self.new.gone ≡ self.old.gone }
    {
        if i < self.files.as_slice().len() {
            forget_name(&mut self.files[i]);
        }
    }

    /// unlinkat(2).
    pub fn unlink_at(&mut self, dir: i32, path: &[u8], flags: u32) -> i32
        ensures answer { unlink_at_of self.old.state dir path.now flags ≡ answer self.new.state result [] }
        ensures gone { self.new.gone ≡ self.old.gone }
    {
        let name = match self.resolve(dir, path) {
            Ok(name) => name,
            Err(error) => return error,
        };
        if flags != 0 {
            return EINVAL;
        }
        let Some(i) = self.file_of(name) else {
            return ENOENT;
        };
        self.unlink(i);
        0
    }
}
