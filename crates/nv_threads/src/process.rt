// A guest with up to eight threads, which take turns, and the calls that they wait for.
ghost use Rattle.std.specs.Prelude.{◌≡◌, ◌≢◌, ◌≤◌, ◌<◌, ◌++◌, ◌∷◌, [], Some, None, Ok, IfOk, true, length, min, is_some, remove, slice_index_or, Contains, IsTrue};
ghost use Rattle.nv_calls.specs.Calls.{request};
ghost use Rattle.nv_calls.specs.Logs.{made, IsNew};
ghost use Rattle.nv_calls.specs.Numbers.{is_local};
ghost use Rattle.nv_calls.specs.Profiles.{in_profile};
ghost use Rattle.nv_calls.specs.Shapes.{IsShaped};
ghost use Rattle.nv_guest.specs.Calls.{call_at, call_number};
ghost use Rattle.nv_guest.specs.Guest.{machine_of, one_thread};
ghost use Rattle.nv_guest.specs.Threads.{asked_as, break_after, machine_at, tids as guest_tids};
ghost use Rattle.nv_threads.specs.Behaviours.{IsStarted};
ghost use Rattle.nv_threads.specs.Threads.{threads, started, renewals_of, renewed, count_of, greatest, state_at, is_running, is_asking, wanted, can_move, is_on, faulted, unless_live, turn_passed, all_unreserved, turn_replied, own_answer, local, woken_one, woken, waiting, operation, futex, futex_by, futex_on, called, machine, task_tids, exited, left_by, brk, broken, with_child_task, goes_on, after_call, answered_as};
ghost use Rattle.nv_threads.specs.Going.{Goes, burst};
ghost use Rattle.nv_threads.specs.inner.Process.{HaveCapacity};
ghost use Rattle.nv_threads.specs.Ahead.{HasGone};

use crate::tasks::{
    Doing, Task, any_asks, asks, can_move, highest, least_waiter, lives, next_tid, place, runs,
    set_doing,
};
use crate::{Ahead, Came, FaultKind, Want};
use arrayvec::ArrayVec;
use nv_calls::errors::{EAGAIN, EFAULT, EINVAL, ENOSYS};
use nv_calls::{
    Bytes, Call, EXIT, EXIT_GROUP, FIRST_THREAD, MOST_BYTES, MOST_EVENTS, MOST_THREADS, made,
};
use nv_guest::{Asked, Guest};
use nv_machine::Stepped;
use nv_memory::Width;
use std::alloc::{AllocError, Global};
use std::marker::Model;

/// How many instructions a turn has.
const TURN: u32 = 1000;

/// A guest that runs, with a budget of instructions.
#[derive(Drop)]
pub struct Process {
    guest: Guest,
    tasks: ArrayVec<Task, MOST_THREADS>,
    /// The call that each thread waits for, if it does, in the order of the threads; those after them are spare.
    calls: Vec<Call>,
    /// The thread whose turn it is; it may have ended.
    turn: u32,
    /// How many instructions the turn has left.
    slice: u32,
    /// How many of the budget it has run since the count last began anew.
    count: u32,
    budget: u32,
    /// How often the count may still begin anew.
    renewals: u32,
    /// How many instructions it had run when the count last began anew.
    earlier: u64,
    status: u8,
    /// Whether the later calls are in the table.
    polls: bool,
}

impl Model for Process {
    ghost use Rattle.std.specs.Prelude.{◌-◌, map};
    ghost use Rattle.nv_calls.specs.Calls.{request};
    ghost use Rattle.nv_guest.specs.Threads.{tids};
    ghost use Rattle.nv_threads.specs.inner.Process.{IsSoundProcess};
    ghost use Rattle.nv_threads.specs.Tasks.{threads_of};
    ghost use Rattle.nv_threads.specs.Threads.{Proc};

    ghost Value = { Proc };

    ghost view = { λ p. record { guest = p.guest; tasks = threads_of p.tasks.items (map request p.calls.items); turn = p.turn; slice = p.slice; left = p.budget - p.count; budget = p.budget; renewals = p.renewals; earlier = p.earlier; status = p.status; polls = p.polls } };

    ghost invariant = { λ p. IsSoundProcess p.count p.budget p.renewals p.earlier (threads_of p.tasks.items (map request p.calls.items)) (tids p.guest.threads) p.calls.items };
}

// The call that a thread of the guest is at, where the later calls are in the table, or aren't.
fn asked_of(guest: &Guest, tid: u32, polls: bool, call: &mut Call) -> Asked
    requires lives { Contains (guest_tids guest.now.threads) tid }
    requires capacity { MOST_BYTES ≤ call.old.payload.capacity }
    ensures asked { result ≡ asked_as (is_local (call_number (machine_at guest.now tid))) }
    ensures shaped { result ≡ Asked.Logged → IsShaped (request call.new) }
    ensures call { request call.new ≡ in_profile polls (call_at (machine_at guest.now tid) tid) }
    ensures capacity { call.new.payload.capacity ≡ call.old.payload.capacity }
{
    let asked = guest.call_of(tid, call);
    call.limit(polls);
    asked
}

#[tactic(auto, unfolding(crate::specs::Threads::threads))]
impl Process {
    /// The process of a guest that hasn't run, whose one thread is 100; all its memory is taken here. Where it renews, the count of its
    /// instructions begins anew at each answer; where it polls, the later calls are in its table.
    #[tactic(auto, unfolding(crate::specs::Threads::threads, crate::specs::Threads::turn_length))]
    pub fn make(
        alloc: Global,
        guest: Guest,
        budget: u32,
        renews: bool,
        polls: bool,
    ) -> Result<Process, AllocError>
        requires alone { guest ≡ one_thread (machine_of guest) }
        requires budget { budget ≤ 1000000000 }
        ensures process { IfOk result (λ p. p ≡ started (machine_of guest) budget renews polls) }
        ensures started { IfOk result (IsStarted threads) }
    {
        let calls = eight_calls(alloc)?;
        let mut tasks = ArrayVec::new();
        tasks.push(Task {
            tid: FIRST_THREAD,
            doing: Doing::Runs,
        });
        Ok(Process {
            guest,
            tasks,
            calls,
            turn: FIRST_THREAD,
            slice: TURN,
            count: 0,
            budget,
            renewals: renewals(renews),
            earlier: 0,
            status: 0,
            polls,
        })
    }

    /// Goes on to the next call or fault.
    pub fn advance(&mut self, want: Want) -> Came
        requires { threads.ended self.old ≡ None }
        ensures came { result ≡ threads.came self.old want }
        ensures after { self.new ≡ threads.after self.old want }
    {
        loop {
            if let Some(came) = self.go(want) {
                return came;
            }
        }
    }

    /// The first rule that applies; the instructions of a turn are run at once.
    fn go(&mut self, want: Want) -> Option<Came>
        requires { task_tids self.old.tasks ≢ [] }
        ensures { Goes want self.old result self.new }
    {
        let wanted = self.wanted(want);
        if self.is_asking(wanted) {
            return Some(Came::Asked(wanted));
        }
        if !can_move(&self.tasks, want) {
            return Some(self.stop());
        }
        if !self.is_on() {
            self.pass();
            return None;
        }
        if self.count == self.budget {
            return Some(self.fault(FaultKind::Budget));
        }
        self.run()
    }

    /// Some turn steps that are the same whichever thread's call is wanted next, where there are any: a thread runs and none asks.
    /// Where no thread can bring it on, or the budget is over, it stays.
    pub fn run_ahead(&mut self) -> Ahead
        ensures { HasGone self.old result self.new }
    {
        if any_asks(&self.tasks) {
            return Ahead::Stays;
        }
        if !can_move(&self.tasks, Want::Any) {
            return Ahead::Stays;
        }
        if !self.is_on() {
            self.pass();
            return Ahead::Goes;
        }
        let left = self.budget - self.count;
        if left == 0 {
            return Ahead::Stays;
        }
        match self.run() {
            None => Ahead::Goes,
            Some(came) => Ahead::Comes(came),
        }
    }

    fn wanted(&self, want: Want) -> u32
        ensures { result ≡ wanted want self.now }
    {
        match want {
            Want::Any => self.turn,
            Want::Only(tid) => tid,
        }
    }

    fn is_asking(&self, tid: u32) -> bool
        ensures { result ≡ is_asking (state_at self.now.tasks tid) }
    {
        asks(&self.tasks, tid)
    }

    fn is_on(&self) -> bool
        ensures { result ≡ is_on self.now }
    {
        runs(&self.tasks, self.turn) && self.slice != 0
    }

    /// The next thread has the turn, and each reservation ends.
    fn pass(&mut self)
        ensures { self.new ≡ turn_passed self.old }
    {
        self.turn = next_tid(&self.tasks, self.turn);
        self.slice = TURN;
        self.guest.release();
    }

    /// Each reservation ends.
    fn release(&mut self)
        ensures { self.new ≡ all_unreserved self.old }
    {
        self.guest.release();
    }

    /// A fault of the turn's thread.
    fn fault(&self, kind: FaultKind) -> Came
        requires { is_some (state_at self.now.tasks self.now.turn) ≡ true }
        ensures { result ≡ Came.Fault kind self.now.turn (machine self.now).regs.pc }
    {
        Came::Fault {
            kind,
            tid: self.turn,
            pc: self.guest.pc(self.turn),
        }
    }

    /// No thread can bring the process on.
    fn stop(&mut self) -> Came
        requires { task_tids self.old.tasks ≢ [] }
        ensures { faulted FaultKind.Deadlock (unless_live self.old) ≡ (Some result, self.new) }
    {
        self.leave_ended();
        self.fault(FaultKind::Deadlock)
    }

    /// A thread that has ended has the turn no longer.
    fn leave_ended(&mut self)
        ensures { self.new ≡ unless_live self.old }
    {
        if lives(&self.tasks, self.turn) {
            return;
        }
        self.pass();
    }

    /// The instructions of the turn, up to the first that ends in a call or a fault.
    fn run(&mut self) -> Option<Came>
        requires { is_on self.old ≡ true }
        ensures { burst (min self.old.slice self.old.left) self.old ≡ (result, self.new) }
    {
        let most = self.slice.min(self.budget - self.count);
        let (count, stepped) = self.guest.run(self.turn, most);
        self.slice -= count;
        self.count += count;
        match stepped {
            Stepped::On => None,
            Stepped::Call => {
                self.call();
                None
            }
            Stepped::Fault(kind) => Some(self.fault(kind)),
        }
    }

    /// The turn's thread is at a call.
    fn call(&mut self)
        requires { is_running (state_at self.old.tasks self.old.turn) ≡ true }
        ensures { self.new ≡ called self.old }
    {
        let place = place(&self.tasks, self.turn);
        let turn = self.turn;
        match asked_of(&self.guest, turn, self.polls, &mut self.calls[place]) {
            Asked::Logged => set_doing(&mut self.tasks, turn, Doing::Asks),
            Asked::Local => {
                let nr = self.guest.regs(turn).get(17);
                self.answer_local(nr);
            }
        }
    }

    /// The process's own answer to the call of the turn's thread, with which each reservation ends.
    fn answer_local(&mut self, nr: u32)
        requires { is_running (state_at self.old.tasks self.old.turn) ≡ true }
        ensures { self.new ≡ local nr self.old }
    {
        self.own_answer(nr);
        self.release();
    }

    #[tactic(auto, unfolding(crate::specs::Threads::own_answer))]
    fn own_answer(&mut self, nr: u32)
        requires { is_running (state_at self.old.tasks self.old.turn) ≡ true }
        ensures { self.new ≡ own_answer nr self.old }
    {
        match nr {
            214 => self.brk(),
            422 => self.futex(),
            124 => {
                self.reply(0);
                self.pass();
            }
            _ => {
                let tid = self.turn;
                self.reply(tid.cast_signed());
            }
        }
    }

    fn reply(&mut self, ret: i32)
        requires { is_running (state_at self.old.tasks self.old.turn) ≡ true }
        ensures { self.new ≡ turn_replied self.old ret }
    {
        self.guest.answer(self.turn, ret, &[]);
    }

    fn brk(&mut self)
        requires { is_running (state_at self.old.tasks self.old.turn) ≡ true }
        ensures { self.new ≡ brk self.old }
    {
        let address = self.guest.regs(self.turn).get(10);
        let end = self.move_break(address);
        self.reply(end.cast_signed());
    }

    fn move_break(&mut self, address: u32) -> u32
        ensures answer { result ≡ break_after self.old.guest.memory address }
        ensures after { self.new ≡ broken self.old address }
    {
        self.guest.move_break(address)
    }

    fn futex(&mut self)
        requires { is_running (state_at self.old.tasks self.old.turn) ≡ true }
        ensures { self.new ≡ futex self.old }
    {
        let regs = self.guest.regs(self.turn);
        let (address, op, value, timeout) = (
            regs.get(10),
            regs.get(11),
            regs.get(12),
            regs.get(13),
        );
        self.futex_by(operation(op), address, value, timeout);
    }

    fn futex_by(&mut self, op: u32, address: u32, value: u32, timeout: u32)
        requires { is_running (state_at self.old.tasks self.old.turn) ≡ true }
        ensures { self.new ≡ futex_by self.old op address value timeout }
    {
        if op > 1 || (op == 0 && timeout != 0) {
            return self.reply(ENOSYS);
        }
        if address % 4 != 0 {
            return self.reply(EINVAL);
        }
        match self.guest.memory().load(address, Width::Four) {
            Err(_) => self.reply(EFAULT),
            Ok(word) => self.futex_on(op, address, value, word),
        }
    }

    fn futex_on(&mut self, op: u32, address: u32, value: u32, word: u32)
        requires { is_running (state_at self.old.tasks self.old.turn) ≡ true }
        ensures { self.new ≡ futex_on self.old op address value (Ok word) }
    {
        if op == 1 {
            let most = self.tasks.len() as u32;
            let count = self.wake(value.min(most), address);
            self.reply(count as i32);
        } else if word == value {
            self.wait(address);
        } else {
            self.reply(EAGAIN);
        }
    }

    /// The turn's thread waits at this address.
    fn wait(&mut self, address: u32)
        requires { is_running (state_at self.old.tasks self.old.turn) ≡ true }
        ensures { self.new ≡ waiting self.old address }
    {
        set_doing(&mut self.tasks, self.turn, Doing::Waits(address));
        self.pass();
    }

    /// At most so many threads that wait at the address run again; gives how many these are.
    fn wake(&mut self, most: u32, address: u32) -> u32
        requires { most ≤ 8 }
        ensures woken { woken most address self.old ≡ (result, self.new) }
        ensures few { result ≤ most }
    {
        for count in 0..most {
            let Some(tid) = least_waiter(&self.tasks, address) else {
                return count;
            };
            self.wake_one(tid);
        }
        most
    }

    fn wake_one(&mut self, tid: u32)
        requires { Contains (task_tids self.old.tasks) tid }
        ensures { self.new ≡ woken_one self.old tid }
    {
        self.guest.answer(tid, 0, &[]);
        set_doing(&mut self.tasks, tid, Doing::Runs);
    }

    /// The call of this thread that waits for its answer.
    pub fn pending(&self, tid: u32) -> &Call
        requires { threads.pending self.now tid ≡ true }
        ensures call { request result.now ≡ threads.call self.now tid }
        ensures shaped { IsShaped (request result.now) }
    {
        &self.calls[place(&self.tasks, tid)]
    }

    /// Where this thread is: a waiting one is at its call.
    pub fn pc(&self, tid: u32) -> u32
        requires { Contains (threads.live self.now) tid }
        ensures { result ≡ threads.pc self.now tid }
    {
        self.guest.pc(tid)
    }

    /// The guest: the threads that live, with their registers, and their memory.
    pub fn guest(&self) -> &Guest
        ensures { result.now ≡ self.now.guest }
    {
        &self.guest
    }

    /// How many instructions it has run.
    pub fn count(&self) -> u64
        ensures { result ≡ count_of self.now }
    {
        self.earlier + u64::from(self.count)
    }

    /// Whether the thread lives.
    pub fn lives(&self, tid: u32) -> bool
        ensures is { result ≡ is_some (state_at self.now.tasks tid) }
        ensures guest { IsTrue result → Contains (guest_tids self.now.guest.threads) tid }
    {
        lives(&self.tasks, tid)
    }

    /// The greatest number of a thread that lives; 0 where none does.
    pub fn highest(&self) -> u32
        ensures { result ≡ greatest (task_tids self.now.tasks) }
    {
        highest(&self.tasks)
    }

    /// The thread gets the answer to its call, and the count of instructions begins anew where it may.
    pub fn answer(&mut self, tid: u32, ret: i32, payload: &[u8])
        requires pending { threads.pending self.old tid ≡ true }
        requires new { IsNew (threads.live self.old) (made (threads.call self.old tid).nr ret) }
        ensures { self.new ≡ threads.answered self.old tid (record { ret = ret; payload = payload.now }) }
    {
        self.give(tid, ret, payload);
        self.renew();
    }

    fn renew(&mut self)
        ensures { self.new ≡ renewed self.old }
    {
        if self.renewals == 0 {
            return;
        }
        self.renewals -= 1;
        self.earlier += u64::from(self.count);
        self.count = 0;
    }

    /// The thread gets an answer to its call that is of no event: the count of instructions goes on.
    pub fn give(&mut self, tid: u32, ret: i32, payload: &[u8])
        requires pending { threads.pending self.old tid ≡ true }
        requires new { IsNew (threads.live self.old) (made (threads.call self.old tid).nr ret) }
        ensures { self.new ≡ threads.given self.old tid (record { ret = ret; payload = payload.now }) }
    {
        let place = place(&self.tasks, tid);
        let nr = self.calls[place].nr;
        let status = self.calls[place].status();
        self.answer_as(tid, nr, status, ret, payload);
    }

    /// The answer to a call with this number, whose first argument ends in this byte. Each reservation ends with it.
    fn answer_as(&mut self, tid: u32, nr: u32, status: u8, ret: i32, payload: &[u8])
        requires lives { Contains (task_tids self.old.tasks) tid }
        requires new { IsNew (task_tids self.old.tasks) (made nr ret) }
        ensures { self.new ≡ answered_as self.old tid nr status (record { ret = ret; payload = payload.now }) }
    {
        self.settle(tid, nr, status, ret, payload);
        self.release();
    }

    /// What the answer does to the threads.
    fn settle(&mut self, tid: u32, nr: u32, status: u8, ret: i32, payload: &[u8])
        requires lives { Contains (task_tids self.old.tasks) tid }
        requires new { IsNew (task_tids self.old.tasks) (made nr ret) }
        ensures { self.new ≡ after_call self.old tid nr status (record { ret = ret; payload = payload.now }) }
    {
        match nr {
            EXIT_GROUP => self.end(status),
            EXIT => self.exit(tid, status),
            _ => {
                self.start(tid, nr, ret);
                self.resume(tid, ret, payload);
            }
        }
    }

    /// The thread that an answer to clone makes, if it does.
    fn start(&mut self, tid: u32, nr: u32, ret: i32)
        requires lives { Contains (task_tids self.old.tasks) tid }
        requires new { IsNew (task_tids self.old.tasks) (made nr ret) }
        ensures { self.new ≡ with_child_task self.old tid (made nr ret) }
    {
        if let Some(child) = made(nr, ret) {
            self.start_child(tid, child);
        }
    }

    /// The whole process has ended.
    fn end(&mut self, status: u8)
        ensures { self.new ≡ exited self.old status }
    {
        self.tasks.clear();
        self.status = status;
    }

    /// The thread has ended.
    fn exit(&mut self, tid: u32, status: u8)
        requires { Contains (task_tids self.old.tasks) tid }
        ensures { self.new ≡ left_by self.old tid status }
    {
        self.guest.end_thread(tid);
        let place = place(&self.tasks, tid);
        self.tasks.remove(place);
        to_end(&mut self.calls, place);
        self.status = status;
    }

    /// The thread has made another.
    fn start_child(&mut self, tid: u32, child: u32)
        requires lives { Contains (task_tids self.old.tasks) tid }
        requires new { IsNew (task_tids self.old.tasks) (Some child) }
        ensures { self.new ≡ with_child_task self.old tid (Some child) }
    {
        self.guest.clone_thread(tid, child);
        self.tasks.push(Task {
            tid: child,
            doing: Doing::Runs,
        });
    }

    fn resume(&mut self, tid: u32, ret: i32, payload: &[u8])
        requires { Contains (task_tids self.old.tasks) tid }
        ensures { self.new ≡ goes_on self.old tid (record { ret = ret; payload = payload.now }) }
    {
        self.guest.answer(tid, ret, payload);
        set_doing(&mut self.tasks, tid, Doing::Runs);
    }

    /// The exit status, once it has exited.
    pub fn ended(&self) -> Option<u8>
        ensures { result ≡ threads.ended self.now }
    {
        if self.tasks.is_empty() {
            Some(self.status)
        } else {
            None
        }
    }
}

// How often the count of a process may begin anew: at each event of the longest log, or never.
fn renewals(renews: bool) -> u32
    ensures { result ≡ renewals_of renews }
{
    if renews { MOST_EVENTS } else { 0 }
}

// The call at this place goes to the end.
fn to_end(calls: &mut [Call], place: usize)
    requires { place < length calls.old }
    ensures { (d : _) → calls.new ≡ remove calls.old place ++ slice_index_or calls.old place d ∷ [] }
{
    calls[place..].rotate_left(1);
}

// A call that can hold what is handed in, for each thread.
#[tactic(auto, using(crate::proofs::Leaving::capacity_more, crate::proofs::Leaving::length_more))]
fn eight_calls(alloc: Global) -> Result<Vec<Call>, AllocError>
    ensures eight { IfOk result (λ calls. length calls.items ≡ 8) }
    ensures capacity { IfOk result (λ calls. HaveCapacity calls.items) }
{
    let mut calls = Vec::new(alloc);
    for _ in 0..MOST_THREADS {
        let call = empty_call(alloc)?;
        calls.push(call)?;
    }
    Ok(calls)
}

fn empty_call(alloc: Global) -> Result<Call, AllocError>
    ensures { IfOk result (λ call. MOST_BYTES ≤ call.payload.capacity) }
{
    Ok(Call {
        tid: FIRST_THREAD,
        nr: 0,
        args: [0; 6],
        bad: false,
        payload: Bytes::make(alloc, MOST_BYTES)?,
    })
}

// FUTEX_PRIVATE_FLAG, 128, makes no difference (futex(2)).
fn operation(op: u32) -> u32
    ensures { result ≡ operation op }
{
    if op % 256 >= 128 { op - 128 } else { op }
}
