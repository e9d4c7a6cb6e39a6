// A version of the guest, as follower and as leader.
ghost use Rattle.std.specs.Prelude.{◌≡◌, ◌≢◌, [], ◌∷◌, ◌+◌, ◌<◌, ◌≤◌, ◌++◌, length, Some, None, IfOk, IfSome, Contains, true, false, option_map, IsTrue, ◌↔◌};
ghost use Rattle.nv_calls.specs.Calls.{request, entry};
ghost use Rattle.nv_calls.specs.Logs.{IsNew, child_of, made};
ghost use Rattle.nv_calls.specs.Shapes.{IsShaped};
ghost use Rattle.nv_threads.specs.Ahead.{MayGoAhead};
ghost use Rattle.nv_threads.specs.Behaviours.{IsStarted};
ghost use Rattle.nv_threads.specs.Threads.{threads};
ghost use Rattle.nv_threads.specs.declared.turns.Came.{Came};
ghost use Rattle.nv_calls.specs.Constants.{constant_of};
ghost use Rattle.nv_calls.specs.Limits.{MOST_EVENTS};
ghost use Rattle.nv_rules.specs.Verdicts.{verdict_of};
ghost use Rattle.nv_replay.specs.Follow.{IsCounted, verdict_on, decided, met, consumed, judged, refusal_of, fresh, judge_of};
ghost use Rattle.nv_replay.specs.Permits.{No, given, failed, passed, took, permit};
ghost use Rattle.nv_replay.specs.Spans.{MOST_SPANS};
ghost use Rattle.nv_replay.specs.Taking.{taken};
ghost use Rattle.nv_replay.specs.Rewrites.{MOST_REWRITES};
ghost use Rattle.nv_replay.specs.Version.{known_of, Running, IsFresh, IsFollowing, IsLiveLeader, LedTo, asking_next, asking_by, became_event, standing_of};

use crate::judging::{give_constant, judge};
use crate::taking::taken;
use crate::{Fate, Spans, Standing};
use nv_bpf::Filter;
use nv_calls::{Bytes, Call, Event, MOST_BYTES, is_of_threads, same};
use nv_rules::{Verdict, verdict};
use nv_threads::{Came, Eager, FaultKind, Process, Want};
use std::alloc::{AllocError, Global};
use std::marker::Model;

// the greatest number of an error (errno(3))
const MOST_ERROR: u16 = 4095;

/// One version of the guest: its process, and how far it has come along the log.
#[derive(Drop)]
pub struct Version {
    index: u32,
    process: Eager,
    standing: Standing,
    leading: bool,
    asked: Option<u32>,
    // the bytes of a reply that a rule gives
    scratch: Bytes,
}

impl Model for Version {
    ghost use Rattle.nv_threads.specs.Threads.{threads, Proc};
    ghost use Rattle.std.specs.Prelude.{◌+◌};
    ghost use Rattle.nv_replay.specs.inner.Bounds.{AreBounded};
    ghost use Rattle.nv_replay.specs.Version.{Running};
    ghost use Rattle.nv_replay.specs.Views.{running_of};

    ghost Value = { Running Proc };

    ghost view = { running_of };

    ghost invariant = { λ v. AreBounded v.standing.seen (v.standing.rewrites + threads.calls_left v.process.process) v.standing.led v.scratch.capacity };
}

/// What a follower has made of an event.
#[derive(Clone, Copy, Debug, PartialEq, Eq, Drop)]
pub enum Followed {
    /// Its call is the event's, and has its reply.
    Matched,
    /// Its call was answered by a rule; the event stays.
    Rewrote(Verdict),
    /// The event was passed over; its call stays.
    Skipped,
    /// Its call was answered by the event, though it is another.
    Took,
    /// It has ended.
    Dropped(Fate),
}

/// What a leader has come to.
#[derive(Clone, Copy, Debug, PartialEq, Eq, Drop)]
pub enum Led {
    /// A call of this thread.
    Asked(u32),
    /// It has ended.
    Dropped(Fate),
}

#[tactic(auto, using(nv_threads::proofs::ThreadLaws::threads_keeps, nv_threads::proofs::ThreadLaws::threads_falls, nv_threads::proofs::ThreadLaws::threads_gives, nv_threads::proofs::ThreadLaws::threads_asked, nv_threads::proofs::ThreadLaws::threads_live))]
impl Version {
    /// The version with this number, which doesn't go on ahead of the log; all its memory is taken here.
    pub fn make(alloc: Global, index: u32, process: Process) -> Result<Version, AllocError>
        requires { IsStarted threads process }
        ensures fresh { IfOk result (IsFresh threads index) }
        ensures process { IfOk result (λ v. v.at.process ≡ process) }
        ensures eager { IfOk result (λ v. v.eager ≡ false) }
    {
        Version::make_eager(alloc, index, process, false)
    }

    /// The same, and whether it may go on ahead of the log.
    pub fn make_eager(
        alloc: Global,
        index: u32,
        process: Process,
        eager: bool,
    ) -> Result<Version, AllocError>
        requires { IsStarted threads process }
        ensures fresh { IfOk result (IsFresh threads index) }
        ensures process { IfOk result (λ v. v.at.process ≡ process) }
        ensures eager { IfOk result (λ v. v.eager ≡ eager) }
    {
        let led = Spans::make(alloc)?;
        let scratch = Bytes::make(alloc, MOST_BYTES)?;
        Ok(Version {
            index,
            process: Eager::new(process, eager),
            standing: Standing {
                fate: None,
                seen: 0,
                led,
                rewrites: 0,
            },
            leading: false,
            asked: None,
            scratch,
        })
    }

    /// One decision on the next event of the log; without rules only the event's own call is permitted.
    #[tactic(auto, using(nv_threads::proofs::ThreadLaws::threads_keeps, nv_threads::proofs::ThreadLaws::threads_asked, nv_threads::proofs::ThreadLaws::threads_live, nv_threads::proofs::ThreadLaws::threads_only, nv_threads::proofs::ThreadLaws::threads_on, crate::proofs::Following::decided_fault, crate::proofs::Following::decided_asked))]
    pub fn follow(&mut self, rules: Option<&Filter>, event: &Event) -> Followed
        requires following { IsFollowing self.old }
        requires stamp { event.now.stamp ≡ self.old.at.seen }
        requires below { self.old.at.seen < MOST_EVENTS }
        requires lives { Contains (threads.live self.old.at.process) event.now.call.tid }
        requires new { IsNew (threads.live self.old.at.process) (child_of (entry event.now)) }
        ensures new { let judge = judge_of (option_map (λ f. f.now) rules.entry) self.old.index in
            self.new ≡ record self.old { at = decided threads judge (entry event.now) self.old.at } }
        ensures told { let judge = judge_of (option_map (λ f. f.now) rules.entry) self.old.index in
            IsCounted (verdict_on threads judge (entry event.now) self.old.at) result self.old.at self.new.at }
    {
        match self.process.advance(Want::Only(event.call.tid)) {
            Came::Fault { kind, tid, pc } => self.end(Fate::Fault { kind, tid, pc }),
            Came::Asked(tid) => self.meet(rules, tid, event),
        }
    }

    // Whether the event is of the very call that the thread asks.
    fn asks(&self, tid: u32, event: &Event) -> bool
        requires { threads.pending self.now.at.process tid ≡ true }
        ensures { IsTrue result ↔ (threads.call self.now.at.process tid ≡ (entry event.now).call) }
    {
        same(self.process.pending(tid), event)
    }

    fn meet(&mut self, rules: Option<&Filter>, tid: u32, event: &Event) -> Followed
        requires following { IsFollowing self.old }
        requires pending { threads.pending self.old.at.process tid ≡ true }
        requires new { IsNew (threads.live self.old.at.process) (child_of (entry event.now)) }
        requires below { self.old.at.seen < MOST_EVENTS }
        ensures new { let judge = judge_of (option_map (λ f. f.now) rules.entry) self.old.index in
            self.new ≡ record self.old { at = met threads judge (entry event.now) self.old.at self.old.at.process (Came.Asked tid) } }
        ensures told { let judge = judge_of (option_map (λ f. f.now) rules.entry) self.old.index in
            IsCounted (verdict_of (judge (threads.call self.old.at.process tid) (entry event.now))) result self.old.at self.new.at }
    {
        if self.asks(tid, event) {
            return self.consume(tid, event);
        }
        let value = judge(rules, self.process.pending(tid), event, self.index);
        self.obey(tid, event, value)
    }

    /// The call isn't the event's, and the rules have this value on the two.
    fn obey(&mut self, tid: u32, event: &Event, value: u32) -> Followed
        requires following { IsFollowing self.old }
        requires pending { threads.pending self.old.at.process tid ≡ true }
        requires below { self.old.at.seen < MOST_EVENTS }
        ensures new { let call = threads.call self.old.at.process tid in
            self.new ≡ record self.old {
              at = judged threads self.old.at self.old.at.process tid (refusal_of call (entry event.now) value)
                  (permit call (entry event.now) (verdict_of value));
            } }
        ensures told { IsCounted (verdict_of value) result self.old.at self.new.at }
    {
        match verdict(value) {
            Verdict::Allow => self.allow(tid, event, value),
            Verdict::Errno(error) => self.fail_call(tid, event, value, error),
            Verdict::Skip => self.pass(tid, event, value),
            Verdict::Take => self.take(tid, event, value),
            Verdict::Refuse(_) => self.refuse(tid, event, value),
        }
    }

    fn allow(&mut self, tid: u32, event: &Event, value: u32) -> Followed
        requires following { IsFollowing self.old }
        requires pending { threads.pending self.old.at.process tid ≡ true }
        ensures new { let call = threads.call self.old.at.process tid in
            self.new ≡ record self.old {
              at = judged threads self.old.at self.old.at.process tid (refusal_of call (entry event.now) value)
                  (given (constant_of call));
            } }
        ensures told { IsCounted Verdict.Allow result self.old.at self.new.at }
    {
        if !give_constant(&mut self.process, tid, &mut self.scratch) {
            return self.refuse(tid, event, value);
        }
        self.standing.rewrites += 1;
        Followed::Rewrote(Verdict::Allow)
    }

    /// The call has this error in place of the kernel's reply, where there is such an error.
    fn fail_call(&mut self, tid: u32, event: &Event, value: u32, error: u16) -> Followed
        requires following { IsFollowing self.old }
        requires pending { threads.pending self.old.at.process tid ≡ true }
        ensures new { let call = threads.call self.old.at.process tid in
            self.new ≡ record self.old {
              at = judged threads self.old.at self.old.at.process tid (refusal_of call (entry event.now) value)
                  (failed call error);
            } }
        ensures told { IsCounted (Verdict.Errno error) result self.old.at self.new.at }
    {
        if error > MOST_ERROR || is_of_threads(self.process.pending(tid).nr) {
            return self.refuse(tid, event, value);
        }
        self.process.give(tid, -i32::from(error), &[]);
        self.standing.rewrites += 1;
        Followed::Rewrote(Verdict::Errno(error))
    }

    /// The event is passed over; the call still waits.
    fn pass(&mut self, tid: u32, event: &Event, value: u32) -> Followed
        requires following { IsFollowing self.old }
        requires pending { threads.pending self.old.at.process tid ≡ true }
        requires below { self.old.at.seen < MOST_EVENTS }
        ensures new { let call = threads.call self.old.at.process tid in
            self.new ≡ record self.old {
              at = judged threads self.old.at self.old.at.process tid (refusal_of call (entry event.now) value)
                  (passed (entry event.now));
            } }
        ensures told { IsCounted Verdict.Skip result self.old.at self.new.at }
    {
        if is_of_threads(event.call.nr) {
            return self.refuse(tid, event, value);
        }
        self.standing.seen += 1;
        self.standing.rewrites += 1;
        Followed::Skipped
    }

    /// The event is consumed, and its reply answers the call, where the call may take it.
    fn take(&mut self, tid: u32, event: &Event, value: u32) -> Followed
        requires following { IsFollowing self.old }
        requires pending { threads.pending self.old.at.process tid ≡ true }
        requires below { self.old.at.seen < MOST_EVENTS }
        ensures new { let call = threads.call self.old.at.process tid in
            self.new ≡ record self.old {
              at = judged threads self.old.at self.old.at.process tid (refusal_of call (entry event.now) value)
                  (took (entry event.now) (taken call (entry event.now)));
            } }
        ensures told { IsCounted Verdict.Take result self.old.at self.new.at }
    {
        match taken(self.process.pending(tid), event) {
            Some(ret) => self.take_as(tid, event, ret),
            None => self.refuse(tid, event, value),
        }
    }

    // Takes the event's reply, with this result.
    fn take_as(&mut self, tid: u32, event: &Event, ret: i32) -> Followed
        requires following { IsFollowing self.old }
        requires pending { threads.pending self.old.at.process tid ≡ true }
        requires below { self.old.at.seen < MOST_EVENTS }
        requires new { IsNew (threads.live self.old.at.process) (made (threads.call self.old.at.process tid).nr ret) }
        ensures new { let reply = record (entry event.now).reply { ret = ret } in
            self.new ≡ record self.old {
              at = record self.old.at {
                process = threads.answered self.old.at.process tid reply;
                seen = self.old.at.seen + 1;
                rewrites = self.old.at.rewrites + 1;
              };
            } }
        ensures told { IsCounted Verdict.Take result self.old.at self.new.at }
    {
        self.process
            .answer(tid, ret, event.reply.payload.as_slice());
        self.standing.seen += 1;
        self.standing.rewrites += 1;
        Followed::Took
    }

    fn refuse(&mut self, tid: u32, event: &Event, value: u32) -> Followed
        requires pending { threads.pending self.old.at.process tid ≡ true }
        ensures new { let call = threads.call self.old.at.process tid in
            self.new ≡ record self.old { at = record self.old.at { fate = Some (refusal_of call (entry event.now) value) } } }
        ensures told { (v : Verdict) → IsCounted v result self.old.at self.new.at }
    {
        let call = self.process.pending(tid);
        let refused = Fate::Refused {
            tid: call.tid,
            nr: call.nr,
            stamp: event.stamp,
            verdict: value,
        };
        self.end(refused)
    }

    fn consume(&mut self, tid: u32, event: &Event) -> Followed
        requires pending { threads.pending self.old.at.process tid ≡ true }
        requires same { (threads.call self.old.at.process tid).nr ≡ event.now.call.nr }
        requires new { IsNew (threads.live self.old.at.process) (child_of (entry event.now)) }
        requires below { self.old.at.seen < MOST_EVENTS }
        ensures new { self.new ≡ record self.old { at = consumed threads self.old.at (threads.answered self.old.at.process tid (entry event.now).reply) } }
        ensures told { result ≡ Followed.Matched }
    {
        self.process
            .answer(tid, event.reply.ret, event.reply.payload.as_slice());
        self.standing.seen += 1;
        self.standing.fate = self.process.ended().map(Fate::Exited);
        Followed::Matched
    }

    fn end(&mut self, fate: Fate) -> Followed
        ensures new { self.new ≡ record self.old { at = record self.old.at { fate = Some fate } } }
        ensures told { result ≡ Followed.Dropped fate }
    {
        self.standing.fate = Some(fate);
        Followed::Dropped(fate)
    }

    /// It is let go, and follows no further.
    pub fn let_go(&mut self)
        requires { IsFollowing self.old }
        ensures { self.new ≡ record self.old { at = record self.old.at { fate = Some Fate.LetGo } } }
    {
        self.standing.fate = Some(Fate::LetGo);
    }

    /// Leads from here on.
    pub fn begin_lead(&mut self)
        requires following { IsFollowing self.old }
        requires few { length self.old.led < MOST_SPANS }
        ensures { self.new ≡ record self.old { led = self.old.led ++ (self.old.at.seen, self.old.at.seen) ∷ []; leading = true } }
    {
        self.standing.led.begin(self.standing.seen);
        self.leading = true;
    }

    /// Gives up the lead, and follows from here on.
    pub fn end_lead(&mut self)
        requires { IsLiveLeader self.old }
        ensures { self.new ≡ record self.old { leading = false } }
    {
        self.leading = false;
    }

    /// Comes to the leader's next call, or ends.
    #[tactic(auto, using(nv_threads::proofs::ThreadLaws::threads_keeps, nv_threads::proofs::ThreadLaws::threads_asked, crate::proofs::Leading::asking_fault, crate::proofs::Leading::asking_asked))]
    pub fn lead(&mut self, most: u32) -> Led
        requires leading { IsLiveLeader self.old }
        requires on { threads.ended self.old.at.process ≡ None }
        ensures new { self.new ≡ asking_next threads most self.old }
        ensures told { LedTo result self.new }
        ensures pending { IfSome self.new.asked (λ t. threads.pending self.new.at.process t ≡ true) }
    {
        match self.process.advance(Want::Any) {
            Came::Fault { kind, tid, pc } => self.fail(Fate::Fault { kind, tid, pc }),
            Came::Asked(tid) => self.ask(tid, most),
        }
    }

    fn fail(&mut self, fate: Fate) -> Led
        ensures new { self.new ≡ record self.old { at = record self.old.at { fate = Some fate } } }
        ensures told { result ≡ Led.Dropped fate }
    {
        self.standing.fate = Some(fate);
        Led::Dropped(fate)
    }

    #[tactic(auto, using(nv_threads::proofs::ThreadLaws::threads_here), unfolding(crate::specs::Version::asking_by))]
    fn ask(&mut self, tid: u32, most: u32) -> Led
        requires leading { IsLiveLeader self.old }
        requires pending { threads.pending self.old.at.process tid ≡ true }
        ensures new { self.new ≡ asking_by threads most self.old self.old.at.process (Came.Asked tid) }
        ensures told { LedTo result self.new }
        ensures pending { IfSome self.new.asked (λ t. threads.pending self.new.at.process t ≡ true) }
    {
        if self.standing.seen >= most {
            let pc = self.process.pc(tid);
            return self.fail(Fate::Fault {
                kind: FaultKind::Calls,
                tid,
                pc,
            });
        }
        self.asked = Some(tid);
        Led::Asked(tid)
    }

    /// Goes on towards its next call, by so many turn steps at most, before it is known what that call has to be, if it is eager. Nothing
    /// that is told of the version depends on it. Says whether there may be more to do.
    pub fn run_ahead(&mut self, steps: u32) -> bool
        ensures same { self.new ≡ self.old }
        ensures goes { IsTrue result → 0 < steps → MayGoAhead (known_of self.old) }
    {
        self.process.run_ahead(steps)
    }

    /// The call of this thread that waits for its answer.
    pub fn pending(&self, tid: u32) -> &Call
        requires { threads.pending self.now.at.process tid ≡ true }
        ensures call { request result.now ≡ threads.call self.now.at.process tid }
        ensures shaped { IsShaped (request result.now) }
    {
        self.process.pending(tid)
    }

    /// The leader's call was served and has become this event.
    pub fn answered(&mut self, event: &Event)
        requires asked { self.old.asked ≡ Some event.now.call.tid }
        requires pending { threads.pending self.old.at.process event.now.call.tid ≡ true }
        requires same { (threads.call self.old.at.process event.now.call.tid).nr ≡ event.now.call.nr }
        requires new { IsNew (threads.live self.old.at.process) (child_of (entry event.now)) }
        requires below { self.old.at.seen < MOST_EVENTS }
        ensures { self.new ≡ became_event threads (entry event.now) self.old }
    {
        self.process.answer(
            event.call.tid,
            event.reply.ret,
            event.reply.payload.as_slice(),
        );
        self.standing.seen += 1;
        self.standing.led.grow();
        self.standing.fate = self.process.ended().map(Fate::Exited);
        self.asked = None;
    }

    /// There was no memory for the leader's call, which isn't served.
    pub fn refuse_memory(&mut self)
        requires { self.old.asked ≢ None }
        ensures { self.new ≡ record self.old { at = record self.old.at { fate = Some Fate.Memory } } }
    {
        self.standing.fate = Some(Fate::Memory);
    }

    /// Its process, where it isn't eager.
    pub fn process(&self) -> &Process
        requires { self.now.eager ≡ false }
        ensures { result.now ≡ self.now.at.process }
    {
        self.process.process()
    }

    /// How many of its calls were rewritten; for each an instruction of the budget ran, or an event was seen.
    pub fn rewrites(&self) -> u64
        ensures is { result ≡ self.now.at.rewrites }
        ensures few { result ≤ MOST_REWRITES }
    {
        self.standing.rewrites
    }

    /// What there is to tell of it.
    pub fn standing(&self) -> &Standing
        ensures { result.now ≡ standing_of self.now }
    {
        &self.standing
    }
}
