// pipe2.
ghost use Rattle.std.specs.Prelude.{◌≡◌, ◌+◌, ◌≤◌, ◌<◌, [], ◌++◌, length, map, option_map, is_none, drop, IfSome, OnOk, vec_capacity, true, false};
ghost use Rattle.std.specs.List.{position_from};
ghost use Rattle.std.specs.Int.{to_le_bytes, w32};
ghost use Rattle.nv_calls.specs.Answer.{answer};
ghost use Rattle.nv_fs.specs.States.{with_at};
ghost use Rattle.nv_fs.specs.Ends.{pipe_of, pipe_on, with_ends, with_empty, free_above, free_pipe};
ghost use Rattle.nv_fs.specs.Kept.{KeepsBlocks};
ghost use Rattle.nv_fs.specs.Reserved.{CanPipe};
ghost use Rattle.nv_fs.specs.Views.{items_of};

use crate::closing::O_CLOEXEC;
use crate::disk::FileSystem;
use crate::finding::first_free;
use crate::open_file::{OpenFile, Target};
use crate::parts::refuse;
use nv_calls::Bytes;
use nv_calls::errors::{EINVAL, EMFILE};
use std::alloc::{AllocError, Global};

const O_NONBLOCK: u32 = 0x800;

/// The flags that change nothing here.
const FLAGS: u32 = O_NONBLOCK | O_CLOEXEC;

// Both numbers in four bytes each.
fn pair(reading: u32, writing: u32) -> [u8; 8]
    ensures { result ≡ to_le_bytes w32 reading ++ to_le_bytes w32 writing }
{
    let [a, b, c, d] = reading.to_le_bytes();
    let [e, f, g, h] = writing.to_le_bytes();
    [a, b, c, d, e, f, g, h]
}

fn free_above(descriptors: &[Option<usize>], fd: usize) -> Option<usize>
    requires { fd < length descriptors.now }
    ensures is { result ≡ option_map (λ n. fd + 1 + n) (position_from is_none 0 (drop (fd + 1) descriptors.now)) }
    ensures inside { IfSome result (λ n. n < length descriptors.now) }
{
    match first_free(&descriptors[fd + 1..]) {
        Some(n) => Some(fd + 1 + n),
        None => None,
    }
}

// Empties a pipe of the table, or adds one.
fn put_empty(alloc: Global, pipes: &mut Vec<Vec<u8>>, k: usize)
    requires inside { k ≤ length pipes.old.items }
    requires reserved { length pipes.old.items < vec_capacity pipes.old }
    ensures { map items_of pipes.new.items ≡ with_at (map items_of pipes.old.items) k [] }
{
    if k < pipes.as_slice().len() {
        pipes[k].clear();
        return;
    }
    match pipes.push(Vec::new(alloc)) {
        Ok(()) => {}
        Err(_) => unreachable!(),
    }
}

#[tactic(auto, unfolding(crate::specs::Ends::pipe_of))]
impl FileSystem {
    fn free_above(&self, fd: usize) -> Option<usize>
        requires { fd < 64 }
        ensures is { result ≡ free_above self.now.state fd }
        ensures inside { IfSome result (λ n. n < 64) }
    {
        free_above(&self.descriptors, fd)
    }

    fn make_pipe(&mut self, k: usize)
        requires inside { k ≤ length self.old.state.pipes }
        requires reserved { length self.old.state.pipes + 1 ≤ self.old.reserved.pipes }
        ensures state { self.new.state ≡ with_empty self.old.state k }
        ensures reserved { self.new.reserved.opens ≡ self.old.reserved.opens }
        ensures gone { self.new.gone ≡ self.old.gone }
    {
        put_empty(self.alloc, &mut self.pipes, k);
    }

    fn pipe_on(&mut self, reading: usize, writing: usize)
        requires reading { reading < 64 }
        requires writing { writing < 64 }
        requires ready { CanPipe self.old }
        ensures state { self.new.state ≡ with_ends self.old.state (free_pipe self.old.state) reading writing }
        ensures gone { self.new.gone ≡ self.old.gone }
    {
        let k = self.free_pipe();
        self.make_pipe(k);
        self.install(reading, OpenFile::one_way(Target::Reader(k), true));
        self.install(writing, OpenFile::one_way(Target::Writer(k), false));
    }

    /// pipe2(2). The reading and the writing descriptor are handed out in 4 bytes each.
    pub fn pipe(&mut self, flags: u32, out: &mut Bytes) -> i32
        requires ready { CanPipe self.old }
        requires capacity { 8 ≤ out.old.capacity }
        ensures answer { pipe_of self.old.state flags ≡ answer self.new.state result out.new.bytes }
        ensures capacity { out.new.capacity ≡ out.old.capacity }
        ensures gone { self.new.gone ≡ self.old.gone }
    {
        if flags & FLAGS != flags {
            return refuse(out, EINVAL);
        }
        let Some(reading) = self.free_descriptor() else {
            return refuse(out, EMFILE);
        };
        let Some(writing) = self.free_above(reading) else {
            return refuse(out, EMFILE);
        };
        self.pipe_on(reading, writing);
        out.set(&pair(reading as u32, writing as u32));
        0
    }

    /// Memory for `pipe`.
    pub fn reserve_pipe(&mut self) -> Result<(), AllocError>
        ensures state { self.new.state ≡ self.old.state }
        ensures ready { OnOk result (CanPipe self.new) }
        ensures others { KeepsBlocks self.old self.new }
        ensures gone { self.new.gone ≡ self.old.gone }
    {
        self.opens.reserve(2)?;
        self.pipes.reserve(1)?;
        Ok(())
    }
}
