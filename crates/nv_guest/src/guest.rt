// A guest with up to eight threads.
ghost use Rattle.std.specs.Prelude.{◌≡◌, ◌<◌, ◌≤◌, length, Contains};

use crate::calls::Caller;
use crate::heap::{Heap, move_heap};
use crate::outcome::Asked;
use crate::threads::{answer_to, place, release_each, run_on, start_child};
use arrayvec::ArrayVec;
use nv_calls::{Call, MOST_BYTES, MOST_THREADS};
use nv_machine::{Regs, Stepped};
use nv_memory::Memory;
use std::marker::Model;

/// A thread with its registers.
#[derive(Drop)]
pub(crate) struct Thread {
    pub(crate) tid: u32,
    pub(crate) regs: Regs,
}

impl Default for Thread {
    fn default() -> Self {
        Thread {
            tid: 0,
            regs: Regs::new(0),
        }
    }
}

/// The threads that live, and their memory.
#[derive(Drop)]
pub struct Guest {
    pub(crate) threads: ArrayVec<Thread, MOST_THREADS>,
    pub(crate) memory: Memory,
    pub(crate) heap: Heap,
}

impl Model for Guest {
    ghost use Rattle.nv_guest.specs.inner.Heap.{HasHeap};
    ghost use Rattle.nv_guest.specs.Threads.{Threaded};

    ghost Value = { Threaded };

    ghost view = { λ g. record { threads = g.threads.items; memory = g.memory } };

    ghost invariant = { λ g. HasHeap g.memory g.heap };
}

impl Guest {
    ghost use Rattle.nv_guest.specs.Calls.{call_at, call_number};
    ghost use Rattle.nv_machine.specs.Guest.{guest_step};
    ghost use Rattle.nv_guest.specs.Heap.{moved};
    ghost use Rattle.nv_guest.specs.Threads.{tids, machine_at, with_machine, run, answered_at, cloned, without, released, asked_as, break_after};
    ghost use Rattle.nv_calls.specs.Calls.{request};
    ghost use Rattle.nv_calls.specs.Numbers.{is_local};
    ghost use Rattle.nv_calls.specs.Shapes.{IsShaped};

    /// Runs the thread for at most so many instructions, up to the first that ends in a call or a fault, and gives
    /// how many were run and how the last one ended.
    pub fn run(&mut self, tid: u32, most: u32) -> (u32, Stepped)
        requires { Contains (tids self.old.threads) tid }
        ensures ran { (result.0, result.1, machine_at self.new tid) ≡ run most (machine_at self.old tid) }
        ensures few { result.0 ≤ most }
        ensures after { self.new ≡ with_machine self.old tid (machine_at self.new tid) }
    {
        let place = place(&self.threads, tid);
        run_on(&mut self.threads[place].regs, &mut self.memory, most)
    }

    /// Runs the thread's next instruction.
    pub fn step(&mut self, tid: u32) -> Stepped
        requires { Contains (tids self.old.threads) tid }
        ensures step { (result, machine_at self.new tid) ≡ guest_step (machine_at self.old tid) }
        ensures after { self.new ≡ with_machine self.old tid (machine_at self.new tid) }
    {
        let (_, stepped) = self.run(tid, 1);
        stepped
    }

    /// The address of the thread's next instruction; at a call that of its ECALL.
    pub fn pc(&self, tid: u32) -> u32
        requires { Contains (tids self.now.threads) tid }
        ensures { result ≡ (machine_at self.now tid).regs.pc }
    {
        self.regs(tid).pc
    }

    /// The registers of the thread.
    pub fn regs(&self, tid: u32) -> &Regs
        requires { Contains (tids self.now.threads) tid }
        ensures { result.now ≡ (machine_at self.now tid).regs }
    {
        &self.threads[place(&self.threads, tid)].regs
    }

    /// The memory of all threads.
    pub fn memory(&self) -> &Memory
        ensures { result.now ≡ self.now.memory }
    {
        &self.memory
    }

    /// The call that the thread is at.
    pub fn call_of(&self, tid: u32, call: &mut Call) -> Asked
        requires lives { Contains (tids self.now.threads) tid }
        requires capacity { MOST_BYTES ≤ call.old.payload.capacity }
        ensures asked { result ≡ asked_as (is_local (call_number (machine_at self.now tid))) }
        ensures shaped { result ≡ Asked.Logged → IsShaped (request call.new) }
        ensures call { request call.new ≡ call_at (machine_at self.now tid) tid }
        ensures capacity { call.new.payload.capacity ≡ call.old.payload.capacity }
    {
        let caller = Caller {
            regs: self.regs(tid),
            memory: &self.memory,
        };
        caller.ask(tid, call)
    }

    /// Stores the bytes of the answer, puts the result into a0 and goes past the call.
    pub fn answer(&mut self, tid: u32, ret: i32, payload: &[u8])
        requires { Contains (tids self.old.threads) tid }
        ensures { self.new ≡ answered_at self.old tid ret payload.now }
    {
        let place = place(&self.threads, tid);
        answer_to(
            &mut self.threads[place].regs,
            &mut self.memory,
            ret,
            payload,
        );
    }

    /// Ends the reservation of each thread.
    pub fn release(&mut self)
        ensures { self.new ≡ released self.old }
    {
        release_each(&mut self.threads);
    }

    /// Moves the break, if it may be there, and gives it (brk(2)).
    pub fn move_break(&mut self, address: u32) -> u32
        ensures answer { result ≡ break_after self.old.memory address }
        ensures after { self.new ≡ record self.old { memory = moved self.old.memory address } }
    {
        move_heap(&mut self.heap, &mut self.memory, address)
    }

    /// Makes a thread that goes on after its parent's call.
    pub fn clone_thread(&mut self, tid: u32, child: u32)
        requires lives { Contains (tids self.old.threads) tid }
        requires few { length self.old.threads < 8 }
        ensures { self.new ≡ cloned self.old tid child }
    {
        let regs = start_child(self.regs(tid));
        self.threads.push(Thread { tid: child, regs });
    }

    /// The thread lives no longer.
    pub fn end_thread(&mut self, tid: u32)
        requires { Contains (tids self.old.threads) tid }
        ensures { self.new ≡ without self.old tid }
    {
        let place = place(&self.threads, tid);
        self.threads.remove(place);
    }
}
