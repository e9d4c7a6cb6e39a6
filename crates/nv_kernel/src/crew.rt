// The threads that live, as the kernel counts them.
ghost use Rattle.std.specs.Prelude.{◌≡◌, ◌<◌, ◌≤◌, length, filter, ◌==◌, not};
ghost use Rattle.nv_calls.specs.Limits.{MOST_EVENTS};
ghost use Rattle.nv_kernel.specs.Crew.{may_clone, clone_of, exit_of, with_none_live, first_crew};
ghost use Rattle.nv_kernel.specs.Reserved.{crew_of};

use arrayvec::ArrayVec;
use nv_calls::errors::{EAGAIN, EINVAL};
use nv_calls::{FIRST_THREAD, MOST_THREADS};

/// The numbers of the threads that live, in the order in which they came, and how many calls to clone succeeded.
#[derive(Drop)]
pub struct LiveThreads {
    pub live: ArrayVec<u32, MOST_THREADS>,
    pub clones: u32,
}

// What a thread shares with the others of its process (clone(2)): all of it is needed.
const SHARED: u32 = CLONE_VM | CLONE_FS | CLONE_FILES | CLONE_SIGHAND | CLONE_THREAD;

const CLONE_VM: u32 = 0x100;

const CLONE_FS: u32 = 0x200;

const CLONE_FILES: u32 = 0x400;

const CLONE_SIGHAND: u32 = 0x800;

const CLONE_THREAD: u32 = 0x10000;

const CLONE_SYSVSEM: u32 = 0x40000;

const CLONE_SETTLS: u32 = 0x80000;

// The flags that a call to clone may have.
fn may_clone(flags: u32) -> bool
    ensures { result ≡ may_clone flags }
{
    flags == SHARED
        || flags == SHARED | CLONE_SYSVSEM
        || flags == SHARED | CLONE_SETTLS
        || flags == SHARED | CLONE_SYSVSEM | CLONE_SETTLS
}

// The threads without one of them.
fn others(live: &[u32], tid: u32) -> ArrayVec<u32, MOST_THREADS>
    requires { length live.now ≤ 8 }
    ensures { result.items ≡ filter (λ t. not (t == tid)) live.now }
{
    let mut rest = ArrayVec::new();
    for i in 0..live.len() {
        if live[i] == tid {
            continue;
        }
        rest.push(live[i]);
    }
    rest
}

impl LiveThreads {
    /// The first thread alone.
    pub fn first() -> LiveThreads
        ensures { crew_of result ≡ first_crew }
    {
        let mut live = ArrayVec::new();
        live.push(FIRST_THREAD);
        LiveThreads { live, clones: 0 }
    }

    /// Whether no thread lives.
    pub fn is_over(&self) -> bool
        ensures { result ≡ (length (crew_of self.now).live == 0) }
    {
        self.live.is_empty()
    }

    /// clone(2) with these flags: the number of the new thread.
    pub fn make(&mut self, flags: u32) -> i32
        requires { (crew_of self.old).clones < MOST_EVENTS }
        ensures { clone_of (crew_of self.old) flags ≡ (result, crew_of self.new) }
    {
        if !may_clone(flags) {
            return EINVAL;
        }
        if self.live.is_full() {
            return EAGAIN;
        }
        self.clones += 1;
        let child = FIRST_THREAD + self.clones;
        self.live.push(child);
        child as i32
    }

    /// exit(2) of this thread.
    pub fn end(&mut self, tid: u32)
        ensures { crew_of self.new ≡ exit_of (crew_of self.old) tid }
    {
        self.live = others(&self.live, tid);
    }

    /// exit_group(2).
    pub fn end_all(&mut self)
        ensures { crew_of self.new ≡ with_none_live (crew_of self.old) }
    {
        self.live.clear();
    }
}
