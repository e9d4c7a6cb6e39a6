// read.
ghost use Rattle.std.specs.Prelude.{◌≡◌, ◌+◌, ◌≤◌, ◌<◌, ◌^◌, length, take, drop};
ghost use Rattle.nv_calls.specs.Answer.{answer};
ghost use Rattle.nv_fs.specs.Views.{bytes_in};
ghost use Rattle.nv_fs.specs.Fetched.{read_of, read_input, read_file, read_pipe, read_target, with_pipe, pipe_at};

use crate::disk::{FileSystem, MemoryFile};
use crate::open_file::{OpenFile, Target};
use crate::parts::{hand_out, refuse};
use nv_calls::errors::{EAGAIN, EBADF};
use nv_calls::{Bytes, MOST_BYTES};

// Drops the first bytes.
fn drop_prefix(held: &mut Vec<u8>, n: usize)
    requires { n ≤ length held.old.items }
    ensures { held.new.items ≡ drop n held.old.items }
{
    let rest = held.as_slice().len() - n;
    held.as_mut_slice().rotate_left(n);
    held.truncate(rest);
}

// Hands out at most so many of a file's bytes from a place on, which it gathers in a part, and tells how many.
fn hand_out_file(
    files: &[MemoryFile],
    i: usize,
    from: usize,
    most: usize,
    part: &mut [u8],
    out: &mut Bytes,
) -> usize
    requires inside { most ≤ length part.old }
    requires capacity { most ≤ out.old.capacity }
    ensures out { out.new ≡ record { bytes = take most (drop from (bytes_in files.now i)); capacity = out.old.capacity } }
    ensures ret { result ≡ length out.new.bytes }
    ensures few { result ≤ most }
    ensures end { from + result < 2 ^ 64 }
{
    if i >= files.len() {
        out.set(&[]);
        return 0;
    }
    let got = files[i].bytes.read_at(from, &mut part[..most]);
    out.set(&part[..got]);
    got
}

#[tactic(auto, unfolding(crate::specs::Fetched::read_of))]
impl FileSystem {
    fn drop_input(&mut self, n: usize)
        requires { n ≤ length self.old.state.input }
        ensures state { self.new.state ≡ record self.old.state { input = drop n self.old.state.input } }
        ensures gone { self.new.gone ≡ self.old.gone }
    {
        self.taken += n;
    }

    // What is still to be read of the input.
    fn input(&self) -> &[u8]
        ensures { result.now ≡ self.now.state.input }
    {
        &self.input.as_slice()[self.taken..]
    }

    fn read_input(&mut self, n: usize, out: &mut Bytes) -> i32
        requires few { n ≤ MOST_BYTES }
        requires capacity { MOST_BYTES ≤ out.old.capacity }
        ensures answer { read_input self.old.state n ≡ answer self.new.state result out.new.bytes }
        ensures capacity { out.new.capacity ≡ out.old.capacity }
        ensures gone { self.new.gone ≡ self.old.gone }
    {
        let got = hand_out(self.input(), 0, n, out);
        self.drop_input(got);
        got as i32
    }

    fn read_file(
        &mut self,
        number: usize,
        description: OpenFile,
        i: usize,
        n: usize,
        out: &mut Bytes,
    ) -> i32
        requires number { number < length self.old.state.opens }
        requires few { n ≤ MOST_BYTES }
        requires capacity { MOST_BYTES ≤ out.old.capacity }
        ensures answer { read_file self.old.state number description i n ≡ answer self.new.state result out.new.bytes }
        ensures capacity { out.new.capacity ≡ out.old.capacity }
        ensures gone { self.new.gone ≡ self.old.gone }
    {
        let got = hand_out_file(
            self.files.as_slice(),
            i,
            description.offset,
            n,
            self.part.as_mut_slice(),
            out,
        );
        self.move_to(number, description, description.offset + got);
        got as i32
    }

    fn drop_from_pipe(&mut self, k: usize, n: usize)
        requires { n ≤ length (pipe_at self.old.state k) }
        ensures state { self.new.state ≡ with_pipe self.old.state k (drop n (pipe_at self.old.state k)) }
        ensures gone { self.new.gone ≡ self.old.gone }
    {
        if k < self.pipes.as_slice().len() {
            drop_prefix(&mut self.pipes[k], n);
        }
    }

    fn read_pipe(&mut self, k: usize, n: usize, out: &mut Bytes) -> i32
        requires few { n ≤ MOST_BYTES }
        requires capacity { MOST_BYTES ≤ out.old.capacity }
        ensures answer { read_pipe self.old.state k n ≡ answer self.new.state result out.new.bytes }
        ensures capacity { out.new.capacity ≡ out.old.capacity }
        ensures gone { self.new.gone ≡ self.old.gone }
    {
        if n == 0 {
            return refuse(out, 0);
        }
        if self.buffer(k).len() == 0 {
            let comes = self.has_open(Target::Writer(k));
            return refuse(out, if comes { EAGAIN } else { 0 });
        }
        let got = hand_out(self.buffer(k), 0, n, out);
        self.drop_from_pipe(k, got);
        got as i32
    }

    fn read_target(
        &mut self,
        number: usize,
        description: OpenFile,
        n: usize,
        out: &mut Bytes,
    ) -> i32
        requires number { number < length self.old.state.opens }
        requires few { n ≤ MOST_BYTES }
        requires capacity { MOST_BYTES ≤ out.old.capacity }
        ensures answer { read_target self.old.state number description description.target n ≡ answer self.new.state result out.new.bytes }
        ensures capacity { out.new.capacity ≡ out.old.capacity }
        ensures gone { self.new.gone ≡ self.old.gone }
    {
        match description.target {
            Target::Input => self.read_input(n, out),
            Target::File(i) => self.read_file(number, description, i, n, out),
            Target::Reader(k) => self.read_pipe(k, n, out),
            Target::Console | Target::Writer(_) => refuse(out, EBADF),
        }
    }

    /// read(2), of at most 4,096 bytes.
    pub fn read(&mut self, fd: u32, count: u32, out: &mut Bytes) -> i32
        requires { MOST_BYTES ≤ out.old.capacity }
        ensures answer { read_of self.old.state fd count ≡ answer self.new.state result out.new.bytes }
        ensures capacity { out.new.capacity ≡ out.old.capacity }
        ensures gone { self.new.gone ≡ self.old.gone }
    {
        let Some((number, description)) = self.open_of(fd) else {
            return refuse(out, EBADF);
        };
        if !description.reads {
            return refuse(out, EBADF);
        }
        self.read_target(number, description, count.min(MOST_BYTES) as usize, out)
    }
}
