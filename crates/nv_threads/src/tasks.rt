// The threads of a process, and what each does.
ghost use Rattle.std.specs.Prelude.{◌≡◌, ◌<◌, nat_lt, length, Contains, Some, is_some, if◌then◌else◌};
ghost use Rattle.nv_threads.specs.Threads.{lesser, next_tid, greatest};
ghost use Rattle.nv_threads.specs.inner.Tasks.{doing_at, with_doing, task_place, task_numbers, moves_by, can_move_by, any_asks_by, waits_by, waiter_by, is_runs, is_asks};

use crate::Want;

/// What a thread does.
#[derive(Clone, Copy, Debug, PartialEq, Eq, Drop)]
pub(crate) enum Doing {
    Runs,
    /// It waits for the answer to a call.
    Asks,
    /// It waits in a futex, at this address.
    Waits(u32),
}

/// A thread that lives.
#[derive(Clone, Copy, Debug, Drop)]
pub(crate) struct Task {
    pub(crate) tid: u32,
    pub(crate) doing: Doing,
}

impl Default for Task {
    fn default() -> Self {
        Task {
            tid: 0,
            doing: Doing::Runs,
        }
    }
}

/// What the thread does, where it lives.
fn doing_at(tasks: &[Task], tid: u32) -> Option<Doing>
    ensures { result ≡ doing_at tasks.now tid }
{
    for task in tasks {
        if task.tid == tid {
            return Some(task.doing);
        }
    }
    None
}

/// Whether the thread lives.
pub(crate) fn lives(tasks: &[Task], tid: u32) -> bool
    ensures { result ≡ is_some (doing_at tasks.now tid) }
{
    doing_at(tasks, tid).is_some()
}

/// The greatest number of a thread that lives; 0 where none does.
pub(crate) fn highest(tasks: &[Task]) -> u32
    ensures { result ≡ greatest (task_numbers tasks.now) }
{
    let mut most = 0;
    let mut i = tasks.len();
    while i > 0 {
        i -= 1;
        most = tasks[i].tid.max(most);
    }
    most
}

/// Whether the thread lives and runs.
pub(crate) fn runs(tasks: &[Task], tid: u32) -> bool
    ensures { result ≡ is_runs (doing_at tasks.now tid) }
{
    match doing_at(tasks, tid) {
        Some(Doing::Runs) => true,
        _ => false,
    }
}

/// Whether the thread lives and waits for the answer to a call.
pub(crate) fn asks(tasks: &[Task], tid: u32) -> bool
    ensures { result ≡ is_asks (doing_at tasks.now tid) }
{
    match doing_at(tasks, tid) {
        Some(Doing::Asks) => true,
        _ => false,
    }
}

/// Where the thread stands.
pub(crate) fn place(tasks: &[Task], tid: u32) -> usize
    requires { Contains (task_numbers tasks.now) tid }
    ensures place { result ≡ task_place tasks.now tid }
    ensures inside { result < length tasks.now }
{
    for (i, task) in tasks.iter().enumerate() {
        if task.tid == tid {
            return i;
        }
    }
    unreachable!()
}

/// The thread does this from here on.
pub(crate) fn set_doing(tasks: &mut [Task], tid: u32, doing: Doing)
    requires { Contains (task_numbers tasks.old) tid }
    ensures { tasks.new ≡ with_doing tasks.old tid doing }
{
    let place = place(tasks, tid);
    tasks[place].doing = doing;
}

/// Whether a thread can bring the process on to what is wanted.
pub(crate) fn can_move(tasks: &[Task], want: Want) -> bool
    ensures { result ≡ can_move_by want tasks.now }
{
    for task in tasks {
        if moves(task.doing, want) {
            return true;
        }
    }
    false
}

fn moves(doing: Doing, want: Want) -> bool
    ensures { result ≡ moves_by want doing }
{
    match doing {
        Doing::Runs => true,
        Doing::Asks => want == Want::Any,
        Doing::Waits(_) => false,
    }
}

/// Whether a thread waits for the answer to a call.
pub(crate) fn any_asks(tasks: &[Task]) -> bool
    ensures { result ≡ any_asks_by tasks.now }
{
    for task in tasks {
        if is_call(task.doing) {
            return true;
        }
    }
    false
}

fn is_call(doing: Doing) -> bool
    ensures { result ≡ is_asks (Some doing) }
{
    match doing {
        Doing::Asks => true,
        _ => false,
    }
}

/// The thread with the next higher number, or the least.
#[tactic(auto, unfolding(crate::specs::Threads::next_tid))]
pub(crate) fn next_tid(tasks: &[Task], turn: u32) -> u32
    ensures { result ≡ next_tid turn (task_numbers tasks.now) }
{
    let mut least = None;
    let mut above = None;
    let mut i = tasks.len();
    while i > 0 {
        i -= 1;
        let tid = tasks[i].tid;
        least = Some(lesser(tid, least));
        above = above_with(tid, turn, above);
    }
    above.or(least).unwrap_or(turn)
}

fn above_with(tid: u32, turn: u32, above: Option<u32>) -> Option<u32>
    ensures { result ≡ (if nat_lt turn tid then Some (lesser tid above) else above) }
{
    if tid > turn {
        Some(lesser(tid, above))
    } else {
        above
    }
}

fn lesser(tid: u32, other: Option<u32>) -> u32
    ensures { result ≡ lesser tid other }
{
    match other {
        Some(other) => tid.min(other),
        None => tid,
    }
}

/// The thread with the least number that waits at this address.
pub(crate) fn least_waiter(tasks: &[Task], address: u32) -> Option<u32>
    ensures { result ≡ waiter_by address tasks.now }
{
    let mut least = None;
    let mut i = tasks.len();
    while i > 0 {
        i -= 1;
        least = waiter_with(tasks[i], address, least);
    }
    least
}

fn waiter_with(task: Task, address: u32, least: Option<u32>) -> Option<u32>
    ensures { result ≡ (if waits_by address task.doing then Some (lesser task.tid least) else least) }
{
    if waits_at(task.doing, address) {
        Some(lesser(task.tid, least))
    } else {
        least
    }
}

fn waits_at(doing: Doing, address: u32) -> bool
    ensures { result ≡ waits_by address doing }
{
    match doing {
        Doing::Waits(at) => at == address,
        _ => false,
    }
}
