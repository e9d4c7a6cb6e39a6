// What poll and fcntl tell of descriptors.
ghost use Rattle.std.specs.Prelude.{◌≡◌, ◌≤◌, ◌<◌, ◌^◌, length, IfSome};
ghost use Rattle.nv_fs.specs.Fetched.{pipe_at};
ghost use Rattle.nv_fs.specs.Polls.{when, input_events, reader_events, writer_events, target_events, file_events, access_of, flags_of, file_flags};
ghost use Rattle.nv_fs.specs.Waits.{reads_input};
ghost use Rattle.nv_fs.specs.States.{open_of};

use crate::coming::reads_input;
use crate::disk::FileSystem;
use crate::open_file::{OpenFile, Target};

/// POLLIN with POLLRDNORM (poll(2)).
pub const READABLE: u32 = 0x41;

/// POLLOUT with POLLWRNORM.
pub const WRITABLE: u32 = 0x104;

/// POLLERR.
pub const FAILED: u32 = 0x8;

/// POLLHUP.
pub const HUNG: u32 = 0x10;

const APPENDS: u32 = 0x400;

const PIPE: usize = 4096;

/// These events, where they are.
pub fn when(is: bool, events: u32) -> u32
    ensures { result ≡ when is events }
{
    if is { events } else { 0 }
}

fn access_of(reads: bool, writes: bool) -> u32
    ensures is { result ≡ access_of reads writes }
    ensures few { result ≤ 2 }
{
    match (reads, writes) {
        (true, true) => 2,
        (false, true) => 1,
        (_, false) => 0,
    }
}

fn flags_of(description: OpenFile) -> u32
    ensures is { result ≡ flags_of description }
    ensures few { result < 2 ^ 16 }
{
    access_of(description.reads, description.writes) + when(description.appends, APPENDS)
}

#[tactic(auto, unfolding(crate::specs::Polls::file_events, crate::specs::Polls::file_flags))]
impl FileSystem {
    fn pipe_len(&self, k: usize) -> usize
        ensures { result ≡ length (pipe_at self.now.state k) }
    {
        let pipes = self.pipes.as_slice();
        if k < pipes.len() {
            pipes[k].as_slice().len()
        } else {
            0
        }
    }

    fn input_events(&self, over: bool) -> u32
        ensures { result ≡ input_events self.now.state over }
    {
        when(!self.is_read(), READABLE) + when(over, HUNG)
    }

    fn reader_events(&self, k: usize) -> u32
        ensures { result ≡ reader_events self.now.state k }
    {
        when(self.pipe_len(k) > 0, READABLE) + when(!self.has_open(Target::Writer(k)), HUNG)
    }

    fn writer_events(&self, k: usize) -> u32
        ensures { result ≡ writer_events self.now.state k }
    {
        when(self.pipe_len(k) < PIPE, WRITABLE) + when(!self.has_open(Target::Reader(k)), FAILED)
    }

    fn target_events(&self, over: bool, target: Target) -> u32
        ensures { result ≡ target_events self.now.state over target }
    {
        match target {
            Target::Input => self.input_events(over),
            Target::Console => WRITABLE,
            Target::File(_) => READABLE + WRITABLE,
            Target::Reader(k) => self.reader_events(k),
            Target::Writer(k) => self.writer_events(k),
        }
    }

    /// What poll may tell of a descriptor, by whether nothing more comes for the input; nothing where it isn't open.
    pub fn events(&self, fd: u32, over: bool) -> Option<u32>
        ensures { result ≡ file_events self.now.state over fd }
    {
        let (_, description) = self.open_of(fd)?;
        Some(self.target_events(over, description.target))
    }

    /// The access mode and the flags of a descriptor; nothing where it isn't open.
    pub fn flags(&self, fd: u32) -> Option<u32>
        ensures is { result ≡ file_flags self.now.state fd }
        ensures few { IfSome result (λ flags. flags < 2 ^ 16) }
    {
        let (_, description) = self.open_of(fd)?;
        Some(flags_of(description))
    }

    /// Whether the descriptor reads the input.
    pub fn reads_input(&self, fd: u32) -> bool
        ensures { result ≡ reads_input (open_of self.now.state fd) }
    {
        reads_input(self.open_of(fd))
    }
}
