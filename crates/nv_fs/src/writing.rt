// write.
ghost use Rattle.std.specs.Prelude.{◌≡◌, ℕ, ◌+◌, ◌-◌, ◌≤◌, ◌<◌, ◌^◌, [], ◌++◌, min, length, slice_index, OnOk};
ghost use Rattle.nv_fs.specs.Contents.{with_bytes};
ghost use Rattle.nv_calls.specs.Answer.{answer};
ghost use Rattle.nv_fs.specs.Seeks.{bytes_of};
ghost use Rattle.nv_fs.specs.Fetched.{pipe_at, with_pipe};
ghost use Rattle.nv_fs.specs.Stored.{write_of, write_console, write_at, write_pipe, write_target, with_content, start_of};
ghost use Rattle.nv_fs.specs.Kept.{takes_memory, KeepsBlocks, KeepsOthers, IsBeside, IsUntouchedBlock};
ghost use Rattle.nv_fs.specs.Reserved.{CanWrite, IsReserved, HasBlocks};

use crate::disk::FileSystem;
use crate::open_file::{OpenFile, Target};
use crate::parts::{append, prefix, reserve_to};
use nv_calls::errors::{EAGAIN, EBADF, EFBIG, ENOSPC, EPIPE};
use std::alloc::AllocError;

/// How many bytes one write moves at most.
const MOST_WRITTEN: usize = 0x7fff_f000;

/// How many bytes a file has at most.
const FILE: usize = 1_048_576;

/// How many bytes a pipe holds.
const PIPE: usize = 4096;

#[tactic(auto, unfolding(crate::specs::Stored::write_of, crate::specs::Reserved::CanWrite))]
impl FileSystem {
    fn write_console(&mut self, bytes: &[u8]) -> i32
        requires { length self.old.state.console + min (length bytes.now) (self.old.state.limit - length self.old.state.console) ≤ self.old.reserved.console }
        ensures answer { write_console self.old.state self.old.state.limit bytes.now ≡ answer self.new.state result [] }
        ensures gone { self.new.gone ≡ self.old.gone }
    {
        let used = self.console.len();
        if used >= self.limit {
            return ENOSPC;
        }
        let part = prefix(bytes, MOST_WRITTEN.min(self.limit - used));
        self.console.append(part);
        part.len() as i32
    }

    fn put_at(&mut self, i: usize, place: usize, bytes: &[u8])
        requires fits { place + length bytes.now < 2 ^ 64 }
        requires reserved { HasBlocks self.old i place (length bytes.now) }
        ensures state { self.new.state ≡ with_content self.old.state i (with_bytes (bytes_of self.old.state i) place bytes.now) }
        ensures gone { self.new.gone ≡ self.old.gone }
    {
        if i < self.files.as_slice().len() {
            self.files[i].bytes.write_at(place, bytes);
        }
    }

    // Where a write begins.
    fn start_of(&self, description: OpenFile, i: usize) -> usize
        ensures { result ≡ start_of self.now.state description i }
    {
        if description.appends {
            self.size_of(i)
        } else {
            description.offset
        }
    }

    fn write_file(&mut self, number: usize, description: OpenFile, i: usize, bytes: &[u8]) -> i32
        requires number { number < length self.old.state.opens }
        requires reserved { HasBlocks self.old i (start_of self.old.state description i) (min (length bytes.now) (1048576 - start_of self.old.state description i)) }
        ensures answer { write_at self.old.state number description i 1048576 (start_of self.old.state description i) bytes.now ≡ answer self.new.state result [] }
        ensures gone { self.new.gone ≡ self.old.gone }
    {
        let start = self.start_of(description, i);
        if start >= FILE {
            return EFBIG;
        }
        let part = prefix(bytes, FILE - start);
        self.put_at(i, start, part);
        self.move_to(number, description, start + part.len());
        part.len() as i32
    }

    fn fill(&mut self, k: usize, bytes: &[u8])
        requires { k < length self.old.state.pipes → length (pipe_at self.old.state k) + length bytes.now ≤ slice_index self.old.reserved.buffers k }
        ensures state { self.new.state ≡ with_pipe self.old.state k (pipe_at self.old.state k ++ bytes.now) }
        ensures gone { self.new.gone ≡ self.old.gone }
    {
        if k < self.pipes.as_slice().len() {
            append(&mut self.pipes[k], bytes);
        }
    }

    fn write_pipe(&mut self, k: usize, bytes: &[u8]) -> i32
        requires some { 0 < length bytes.now }
        requires reserved { k < length self.old.state.pipes → length (pipe_at self.old.state k) + length bytes.now ≤ 4096 → length (pipe_at self.old.state k) + length bytes.now ≤ slice_index self.old.reserved.buffers k }
        ensures answer { write_pipe self.old.state k 4096 bytes.now ≡ answer self.new.state result [] }
        ensures gone { self.new.gone ≡ self.old.gone }
    {
        if !self.has_open(Target::Reader(k)) {
            return EPIPE;
        }
        if bytes.len() > PIPE.saturating_sub(self.buffer(k).len()) {
            return EAGAIN;
        }
        self.fill(k, bytes);
        bytes.len() as i32
    }

    fn write_target(&mut self, number: usize, description: OpenFile, bytes: &[u8]) -> i32
        requires number { number < length self.old.state.opens }
        requires reserved { IsReserved self.old description description.target (length bytes.now) }
        requires some { 0 < length bytes.now }
        ensures answer { write_target self.old.state number description description.target bytes.now ≡ answer self.new.state result [] }
        ensures gone { self.new.gone ≡ self.old.gone }
    {
        match description.target {
            Target::Console => self.write_console(bytes),
            Target::File(i) => self.write_file(number, description, i, bytes),
            Target::Writer(k) => self.write_pipe(k, bytes),
            Target::Input | Target::Reader(_) => EBADF,
        }
    }

    /// write(2).
    pub fn write(&mut self, fd: u32, bytes: &[u8]) -> i32
        requires { CanWrite self.old fd (length bytes.now) }
        ensures answer { write_of self.old.state fd bytes.now ≡ answer self.new.state result [] }
        ensures gone { self.new.gone ≡ self.old.gone }
    {
        let Some((number, description)) = self.open_of(fd) else {
            return EBADF;
        };
        if !description.writes {
            return EBADF;
        }
        if bytes.len() == 0 {
            return 0;
        }
        self.write_target(number, description, bytes)
    }

    fn reserve_console(&mut self, n: usize) -> Result<(), AllocError>
        ensures state { self.new.state ≡ self.old.state }
        ensures ok { OnOk result (length self.old.state.console + min n (self.old.state.limit - length self.old.state.console) ≤ self.new.reserved.console) }
        ensures others { KeepsBlocks self.old self.new }
        ensures gone { self.new.gone ≡ self.old.gone }
    {
        let used = self.console.len();
        let more = n.min(self.limit.saturating_sub(used));
        self.console.reserve(more)
    }

    fn reserve_content(&mut self, i: usize, place: usize, n: usize) -> Result<(), AllocError>
        requires { place + n < 2 ^ 64 }
        ensures state { self.new.state ≡ self.old.state }
        ensures ok { OnOk result (HasBlocks self.new i place n) }
        ensures others { (j k : ℕ) → IsBeside i place n j k → takes_memory self.new j k ≡ takes_memory self.old j k }
        ensures gone { self.new.gone ≡ self.old.gone }
    {
        if i < self.files.as_slice().len() {
            self.files[i].bytes.reserve(place, n)
        } else {
            Ok(())
        }
    }

    fn reserve_buffer(&mut self, k: usize, most: usize) -> Result<(), AllocError>
        ensures state { self.new.state ≡ self.old.state }
        ensures ok { OnOk result (k < length self.old.state.pipes → most ≤ slice_index self.new.reserved.buffers k) }
        ensures others { KeepsBlocks self.old self.new }
        ensures gone { self.new.gone ≡ self.old.gone }
    {
        if k < self.pipes.as_slice().len() {
            reserve_to(&mut self.pipes[k], most)
        } else {
            Ok(())
        }
    }

    fn reserve_file(&mut self, description: OpenFile, i: usize, n: usize) -> Result<(), AllocError>
        ensures state { self.new.state ≡ self.old.state }
        ensures ok { OnOk result (HasBlocks self.new i (start_of self.old.state description i) (min n (1048576 - start_of self.old.state description i))) }
        ensures others { (j k : ℕ) → IsBeside i (start_of self.old.state description i) (min n (1048576 - start_of self.old.state description i)) j k → takes_memory self.new j k ≡ takes_memory self.old j k }
        ensures gone { self.new.gone ≡ self.old.gone }
    {
        let start = self.start_of(description, i);
        if start >= FILE {
            return Ok(());
        }
        self.reserve_content(i, start, n.min(FILE - start))
    }

    fn reserve_pipe_for(&mut self, k: usize, n: usize) -> Result<(), AllocError>
        ensures state { self.new.state ≡ self.old.state }
        ensures ok { OnOk result (k < length self.old.state.pipes → length (pipe_at self.old.state k) + n ≤ 4096 → length (pipe_at self.old.state k) + n ≤ slice_index self.new.reserved.buffers k) }
        ensures others { KeepsBlocks self.old self.new }
        ensures gone { self.new.gone ≡ self.old.gone }
    {
        let used = self.buffer(k).len();
        if n > PIPE.saturating_sub(used) {
            return Ok(());
        }
        self.reserve_buffer(k, used + n)
    }

    fn reserve_target(&mut self, description: OpenFile, n: usize) -> Result<(), AllocError>
        ensures state { self.new.state ≡ self.old.state }
        ensures ok { OnOk result (IsReserved self.new description description.target n) }
        ensures others { (j k : ℕ) → IsUntouchedBlock self.old.state description description.target n j k → takes_memory self.new j k ≡ takes_memory self.old j k }
        ensures gone { self.new.gone ≡ self.old.gone }
    {
        match description.target {
            Target::Console => self.reserve_console(n),
            Target::File(i) => self.reserve_file(description, i, n),
            Target::Writer(k) => self.reserve_pipe_for(k, n),
            Target::Input | Target::Reader(_) => Ok(()),
        }
    }

    /// Memory for a write of `count` bytes to the descriptor. A gap before the place of the write takes none.
    pub fn reserve_write(&mut self, fd: u32, count: u32) -> Result<(), AllocError>
        ensures state { self.new.state ≡ self.old.state }
        ensures ready { OnOk result (CanWrite self.new fd count) }
        ensures others { KeepsOthers self.old self.new fd count }
        ensures gone { self.new.gone ≡ self.old.gone }
    {
        let Some((_, description)) = self.open_of(fd) else {
            return Ok(());
        };
        self.reserve_target(description, count as usize)
    }
}
