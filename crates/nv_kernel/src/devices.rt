// What the kernel answers each call, and what each call leaves.
ghost use Rattle.std.specs.Prelude.{◌≡◌, ◌≤◌, ◌<◌, ◌+◌, ◌*◌, ◌^◌, ◌==◌, pos, [], length, map, OnOk, IfOk};
ghost use Rattle.nv_calls.specs.Answers.{most_out_by};
ghost use Rattle.nv_calls.specs.Calls.{request};
ghost use Rattle.nv_calls.specs.Limits.{MOST_EVENTS};
ghost use Rattle.nv_calls.specs.Numbers.{syscall_of};
ghost use Rattle.nv_script.specs.Views.{setup_of};
ghost use Rattle.nv_fs.specs.Fetched.{read_of};
ghost use Rattle.nv_fs.specs.Stored.{write_of};
ghost use Rattle.nv_fs.specs.Reserved.{CanWrite};
ghost use Rattle.nv_kernel.specs.Crew.{exit_of, with_none_live};
ghost use Rattle.nv_kernel.specs.Serving.{of_files, of_crew, second, time_of, reached, answered, serve, first_state, control, unless_many, unless_bad, clock, randomly};
ghost use Rattle.nv_kernel.specs.Reserved.{state_of, can_answer, CanAnswer, most_out};

use crate::clock::{start_of, time_bytes};
use crate::constants::{PARENT, PROCESS, USER, directory, names, only};
use crate::crew::LiveThreads;
use crate::random::fill_random;
use nv_calls::errors::{EBADF, EFAULT, EINVAL, ENOSYS, ENOTTY};
use nv_calls::{Bytes, Call, MOST_BYTES, MOST_VECTORS, Syscall};
use nv_fs::FileSystem;
use nv_script::Script;
use std::alloc::{AllocError, Global};

/// What calls read and change.
#[derive(Drop)]
pub struct Devices {
    pub files: FileSystem,
    pub threads: LiveThreads,
    /// How many calls were served.
    pub served: u32,
    /// The clock at the first call, in nanoseconds.
    pub start: u64,
    /// How many nanoseconds each call moves the clock.
    pub step: u32,
    /// The state of the random numbers.
    pub random: u64,
}

impl Devices {
    /// What a script gives.
    pub fn make(alloc: Global, script: &Script) -> Result<Devices, AllocError>
        ensures state { IfOk result (λ made. state_of made ≡ first_state (setup_of script.now)) }
        ensures gone { IfOk result (λ made. made.files.gone ≡ 0) }
    {
        let files = FileSystem::make(alloc, script.polls, &script.input, &script.files)?;
        Ok(Devices {
            files,
            threads: LiveThreads::first(),
            served: 0,
            start: start_of(script.seconds, script.nanos),
            step: script.step,
            random: u64::from(script.seed),
        })
    }

    /// Whether no thread lives.
    pub fn is_over(&self) -> bool
        ensures { result ≡ (length (state_of self.now).crew.live == 0) }
    {
        self.threads.is_over()
    }

    /// What the clock shows, in nanoseconds after the beginning of 1970.
    pub fn now(&self) -> u128
        ensures is { result ≡ time_of (state_of self.now) }
        ensures few { result < 2 ^ 65 }
    {
        u128::from(self.start) + u128::from(self.served) * u128::from(self.step)
    }

    /// It is at least so late: so many seconds after the beginning of 1970, and nanoseconds after them. The clock never goes back.
    pub fn reach(&mut self, seconds: u32, nanos: u32)
        ensures state { state_of self.new ≡ reached (state_of self.old) (seconds * second + nanos) }
        ensures files { self.new.files ≡ self.old.files }
    {
        let went = u64::from(self.served) * u64::from(self.step);
        let start = start_of(seconds, nanos).saturating_sub(went);
        self.start = self.start.max(start);
    }

    // ioctl(2): no open file is a terminal.
    fn control(&self, fd: u32) -> i32
        ensures { control (state_of self.now) fd ≡ record { state = state_of self.now; ret = result; payload = [] } }
    {
        if self.files.has(fd) { ENOTTY } else { EBADF }
    }

    // readv(2), of vectors that hold so many bytes together.
    fn read_vectors(&mut self, fd: u32, count: u32, capacity: u32, out: &mut Bytes) -> i32
        requires { MOST_BYTES ≤ out.old.capacity }
        ensures answer { unless_many (state_of self.old) count (of_files (state_of self.old) (read_of self.old.files.state fd capacity)) ≡ record { state = state_of self.new; ret = result; payload = out.new.bytes } }
        ensures capacity { out.new.capacity ≡ out.old.capacity }
        ensures gone { self.new.files.gone ≡ self.old.files.gone }
    {
        if count > MOST_VECTORS {
            return only(EINVAL, out);
        }
        self.files.read(fd, capacity, out)
    }

    // writev(2), of vectors that hold these bytes.
    fn write_vectors(&mut self, fd: u32, count: u32, bytes: &[u8]) -> i32
        requires { CanWrite self.old.files fd (length bytes.now) }
        ensures answer { unless_many (state_of self.old) count (of_files (state_of self.old) (write_of self.old.files.state fd bytes.now)) ≡ record { state = state_of self.new; ret = result; payload = [] } }
        ensures gone { self.new.files.gone ≡ self.old.files.gone }
    {
        if count > MOST_VECTORS {
            return EINVAL;
        }
        self.files.write(fd, bytes)
    }

    // clock_gettime(2).
    fn clock(&self, id: u32, out: &mut Bytes) -> i32
        requires { 16 ≤ out.old.capacity }
        ensures answer { clock (state_of self.now) id ≡ record { state = state_of self.now; ret = result; payload = out.new.bytes } }
        ensures capacity { out.new.capacity ≡ out.old.capacity }
        ensures few { length out.new.bytes ≤ 16 }
    {
        if id > 1 {
            return only(EINVAL, out);
        }
        out.set(&time_bytes(self.start, self.step, self.served));
        0
    }

    // getrandom(2).
    fn hand_out_random(&mut self, n: u32, out: &mut Bytes) -> i32
        requires few { n ≤ MOST_BYTES }
        requires capacity { MOST_BYTES ≤ out.old.capacity }
        ensures answer { randomly (state_of self.old) n ≡ record { state = state_of self.new; ret = result; payload = out.new.bytes } }
        ensures capacity { out.new.capacity ≡ out.old.capacity }
        ensures few { length out.new.bytes ≡ n }
        ensures gone { self.new.files.gone ≡ self.old.files.gone }
    {
        let mut bytes = [0; MOST_BYTES as usize];
        let part = &mut bytes[..n as usize];
        self.random = fill_random(self.random, part);
        out.set(part);
        n as i32
    }

    // exit(2).
    fn end(&mut self, tid: u32) -> i32
        ensures answer { of_crew (state_of self.old) (pos 0, exit_of (state_of self.old).crew tid) ≡ record { state = state_of self.new; ret = result; payload = [] } }
        ensures gone { self.new.files.gone ≡ self.old.files.gone }
    {
        self.threads.end(tid);
        0
    }

    // exit_group(2).
    fn end_all(&mut self) -> i32
        ensures answer { of_crew (state_of self.old) (pos 0, with_none_live (state_of self.old).crew) ≡ record { state = state_of self.new; ret = result; payload = [] } }
        ensures gone { self.new.files.gone ≡ self.old.files.gone }
    {
        self.threads.end_all();
        0
    }

    // What the call answers, where all that it reads and writes is the guest's.
    fn answer_as(&mut self, syscall: Syscall, call: &Call, out: &mut Bytes) -> i32
        requires ready { can_answer syscall self.old.files (request call.now) }
        requires capacity { MOST_BYTES ≤ out.old.capacity }
        requires empty { out.old.bytes ≡ [] }
        requires clones { (state_of self.old).crew.clones < MOST_EVENTS }
        ensures answer { answered syscall (state_of self.old) (request call.now) ≡ record { state = state_of self.new; ret = result; payload = out.new.bytes } }
        ensures capacity { out.new.capacity ≡ out.old.capacity }
        ensures few { length out.new.bytes ≤ most_out_by syscall (request call.now).args }
        ensures gone { self.new.files.gone ≡ self.old.files.gone }
    {
        let args = call.args;
        let bytes = call.payload.as_slice();
        match syscall {
            Syscall::Getcwd => directory(args[1], out),
            Syscall::Dup => self.files.dup(args[0]),
            Syscall::Dup3 => self.files.dup3(args[0], args[1], args[2]),
            Syscall::Ioctl => self.control(args[0]),
            Syscall::Unlinkat => self.files.unlink_at(args[0].cast_signed(), bytes, args[2]),
            Syscall::Openat => self.files.open_at(args[0].cast_signed(), bytes, args[2]),
            Syscall::Close => self.files.close(args[0]),
            Syscall::Pipe2 => self.files.pipe(args[1], out),
            Syscall::Llseek => self.files.seek(args[0], args[1], args[2], args[4], out),
            Syscall::Read => self.files.read(args[0], args[2], out),
            Syscall::Write => self.files.write(args[0], bytes),
            Syscall::Readv => self.read_vectors(args[0], args[2], args[3], out),
            Syscall::Writev => self.write_vectors(args[0], args[2], bytes),
            Syscall::Exit => self.end(call.tid),
            Syscall::ExitGroup => self.end_all(),
            Syscall::Uname => names(out),
            Syscall::Getpid => PROCESS,
            Syscall::Getppid => PARENT,
            Syscall::Getuid | Syscall::Geteuid | Syscall::Getgid | Syscall::Getegid => USER,
            Syscall::Getrandom => self.hand_out_random(args[1].min(MOST_BYTES), out),
            Syscall::ClockGettime64 => self.clock(args[0], out),
            Syscall::Clone => self.threads.make(args[0]),
            Syscall::Socket
            | Syscall::Bind
            | Syscall::Listen
            | Syscall::Accept
            | Syscall::Accept4
            | Syscall::Fcntl
            | Syscall::ClockNanosleep
            | Syscall::Pselect6
            | Syscall::Ppoll
            | Syscall::Unknown => ENOSYS,
        }
    }

    /// The result of a call, which is this one of the table, with the bytes that it hands out.
    #[tactic(auto, unfolding(crate::specs::Serving::serve))]
    pub fn answer(&mut self, syscall: Syscall, call: &Call, out: &mut Bytes) -> i32
        requires syscall { syscall ≡ syscall_of call.now.nr }
        requires ready { CanAnswer self.old.files (request call.now) }
        requires few { self.old.served < MOST_EVENTS }
        requires capacity { MOST_BYTES ≤ out.old.capacity }
        requires clones { (state_of self.old).crew.clones < MOST_EVENTS }
        ensures answer { serve (state_of self.old) (request call.now) ≡ record { state = state_of self.new; ret = result; payload = out.new.bytes } }
        ensures capacity { out.new.capacity ≡ out.old.capacity }
        ensures few { length out.new.bytes ≤ most_out (request call.now) }
        ensures gone { self.new.files.gone ≡ self.old.files.gone }
    {
        out.set(&[]);
        let ret = if call.bad {
            EFAULT
        } else {
            self.answer_as(syscall, call, out)
        };
        self.served += 1;
        ret
    }

    /// Memory for what the call leaves.
    pub fn reserve(&mut self, syscall: Syscall, call: &Call) -> Result<(), AllocError>
        requires syscall { syscall ≡ syscall_of call.now.nr }
        requires few { length call.now.payload.bytes ≤ MOST_BYTES }
        ensures state { state_of self.new ≡ state_of self.old }
        ensures ready { OnOk result (CanAnswer self.new.files (request call.now)) }
        ensures gone { self.new.files.gone ≡ self.old.files.gone }
    {
        let args = call.args;
        let bytes = call.payload.as_slice();
        match syscall {
            Syscall::Openat => self
                .files
                .reserve_path(args[0].cast_signed(), bytes, args[2]),
            Syscall::Pipe2 => self.files.reserve_pipe(),
            Syscall::Write | Syscall::Writev => self
                .files
                .reserve_write(args[0], bytes.len() as u32),
            _ => Ok(()),
        }
    }
}
