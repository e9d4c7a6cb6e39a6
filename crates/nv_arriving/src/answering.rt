// What answers where input arrives.
ghost use Rattle.std.specs.Prelude.{◌≡◌, ◌≤◌, ◌++◌, ◌∷◌, ℕ, [], List, false, true, IfOk, OnOk, length, map, take, slice_index};
ghost use Rattle.nv_calls.specs.Calls.{request, Entry};
ghost use Rattle.nv_calls.specs.Hands.{with_hand};
ghost use Rattle.nv_calls.specs.Limits.{MOST_BYTES};
ghost use Rattle.nv_calls.specs.Logs.{served};
ghost use Rattle.nv_calls.specs.Shapes.{IsShaped};
ghost use Rattle.nv_calls.specs.Learning.{GoesOn};
ghost use Rattle.nv_script.specs.Scripts.{Setup};
ghost use Rattle.nv_script.specs.Views.{setup_of};
ghost use Rattle.nv_kernel.specs.Answering.{MayCome, IsAnswer};
ghost use Rattle.nv_kernel.specs.Reserved.{most_out};
ghost use Rattle.nv_sockets.specs.Views.{link_of, gone_of};
ghost use Rattle.nv_script.specs.ArrivalViews.{view as arrival_of};
ghost use Rattle.nv_arriving.specs.Arriving.{first_standing, start_of_arrivals};
ghost use Rattle.nv_arriving.specs.Kernel.{CanServe, KeepsOn, begun_in};
ghost use Rattle.nv_arriving.specs.Reserved.{IsKept};
ghost use Rattle.nv_arriving.specs.Standing.{StandsAt};
ghost use Rattle.nv_arriving.specs.Telling.{HasHanded};
ghost use Rattle.nv_arriving.specs.Views.{standing_of, room_of};

use crate::arrivals::{learn, rest};
use crate::guests::{GuestSide, say};
use crate::listed::{Nothing, copies};
use crate::timing::Until;
use crate::waiting::Intake;
use nv_calls::{Bytes, Call, Past, Syscall};
use nv_fs::FileSystem;
use nv_kernel::Answers;
use nv_live::Telling;
use nv_script::{Arrival, Outside, Script};
use nv_sockets::Connection;
use std::alloc::{AllocError, Global};
use std::marker::Model;
use std::snapshot::Snapshot;

/// The guests' side, the outside, and what came from there.
#[derive(Drop)]
pub struct Guests<O: Outside> {
    alloc: Global,
    side: GuestSide,
    /// The outside as it was when the kernel was made.
    begun: Snapshot<O>,
    outside: O,
    /// What has come from outside.
    came: Past<Arrival>,
    /// How many of these the guests' side has. They are let go.
    used: usize,
    /// Of the call that memory was last taken for: found in `reserve`, for `answer` too.
    intake: Intake,
    /// Nothing more comes from outside.
    over: bool,
    /// What is said is kept; else it is let go once it is said.
    keeps: bool,
}

impl<O: Outside> Model for Guests<O> {
    ghost use Rattle.std.specs.Prelude.{◌≤◌, length, map, drop};
    ghost use Rattle.nv_arriving.specs.Kernel.{Coming};
    ghost use Rattle.nv_script.specs.ArrivalViews.{view as arrival_of};
    ghost use Rattle.nv_arriving.specs.Views.{standing_of, room_of};

    ghost Value = { Coming O };

    ghost view = { λ g. record {
      stage = record { here = standing_of g.side; rest = drop g.used (map arrival_of g.came.items) };
      begun = g.begun.value;
      outside = g.outside;
      came = map arrival_of g.came.items;
      intake = g.intake;
      over = g.over;
      keeps = g.keeps;
      room = room_of g.side;
    } };

    ghost invariant = { λ g. (g.used ≤ length g.came.items) × (g.came.gone ≤ g.used) };
}

// The first of those that have come.
fn first(rest: &[Arrival], count: usize) -> &[Arrival]
    requires { count ≤ length rest.now }
    ensures { result.now ≡ take count rest.now }
{
    &rest[..count]
}

// Those that have come are let go where the guests' side has them all.
fn pass(came: &mut Past<Arrival>, used: usize)
    requires { came.old.gone ≤ used }
    ensures items { came.new.items ≡ came.old.items }
    ensures gone { came.new.gone ≤ used }
{
    if came.len() <= used {
        came.let_go();
    }
}

impl<O: Outside> Guests<O> {
    /// What a script gives, and this outside, from which nothing has come. What is said is kept, or let go once it is said.
    pub fn make(
        alloc: Global,
        script: &Script,
        outside: O,
        keeps: bool,
    ) -> Result<Guests<O>, AllocError>
        ensures stands { IfOk result (λ made. StandsAt O.did O.is_over made (setup_of script.now) []) }
        ensures made { IfOk result (λ made. (made.came ≡ []) × (made.begun ≡ outside) × (made.outside ≡ outside)) }
        ensures kept { IfOk result (λ made. (made.keeps ≡ keeps) × IsKept made.room) }
    {
        let side = GuestSide::make(alloc, script)?;
        Ok(Guests::from_side(alloc, script, side, outside, keeps))
    }

    // The same over the guests' side as a script gives it.
    pub(crate) fn from_side(
        alloc: Global,
        script: &Script,
        side: GuestSide,
        outside: O,
        keeps: bool,
    ) -> Guests<O>
        requires first { standing_of side ≡ first_standing (setup_of script.now) }
        requires kept { IsKept (room_of side) }
        ensures stands { StandsAt O.did O.is_over result (setup_of script.now) [] }
        ensures made { (result.came ≡ []) × (result.begun ≡ outside) × (result.outside ≡ outside) }
        ensures kept { (result.keeps ≡ keeps) × IsKept result.room }
    {
        let begun = Snapshot::of(&outside);
        Guests {
            alloc,
            side,
            begun,
            outside,
            came: Past::new(alloc),
            used: 0,
            intake: Intake::nothing(Syscall::Unknown, Until::Never),
            over: false,
            keeps,
        }
    }

    /// The connections, those of the script first, each with what was written to it, where all is kept.
    pub fn connections(&self) -> &[Connection]
        requires { IsKept self.now.room }
        ensures links { map link_of result.now ≡ self.now.stage.here.state.net.links }
        ensures gone { (i : ℕ) → slice_index (map gone_of result.now) i ≡ 0 }
    {
        self.side.host.sockets.connections()
    }

    /// The bytes on the console, where all are kept.
    pub fn console(&self) -> &[u8]
        ensures { IsKept self.now.room → result.now ≡ self.now.stage.here.state.own.files.console }
    {
        self.side.host.devices.files.console()
    }

    /// The files, as the calls left them.
    pub fn files(&self) -> &FileSystem
        ensures { result.now.state ≡ self.now.stage.here.state.own.files }
    {
        &self.side.host.devices.files
    }

    /// The outside, as it is.
    pub fn outside(&self) -> &O
        ensures { result.now ≡ self.now.outside }
    {
        &self.outside
    }

    /// The outside, where no more is asked.
    pub fn into_outside(self) -> O
        ensures { result ≡ self.outside }
    {
        self.outside
    }
}

impl Guests<Nothing> {
    /// What a script gives, where all has come that it lists. Nothing more comes.
    pub(crate) fn listed(alloc: Global, script: &Script) -> Result<Guests<Nothing>, AllocError>
        ensures { IfOk result (λ made. StandsAt ⟦<Nothing as Outside>⟧.did ⟦<Nothing as Outside>⟧.is_over made (setup_of script.now) [] × (made.came ≡ (setup_of script.now).arrivals) × (made.over ≡ true) × (made.keeps ≡ true) × IsKept made.room) }
    {
        let side = GuestSide::make(alloc, script)?;
        let came = copies(alloc, script.arrivals.as_slice())?;
        let outside = Nothing;
        let begun = Snapshot::of(&outside);
        Ok(Guests {
            alloc,
            side,
            begun,
            outside,
            came,
            used: 0,
            intake: Intake::nothing(Syscall::Unknown, Until::Never),
            over: true,
            keeps: true,
        })
    }
}

impl<O: Outside + Telling + Send> Answers for Guests<O> {
    ghost use Rattle.std.specs.Prelude.{false};
    ghost use Rattle.nv_kernel.specs.Codes.{setup_code};
    ghost use Rattle.nv_arriving.specs.Beginnings.{begun_code};
    ghost use Rattle.nv_arriving.specs.Kernel.{Begun};

    ghost Beginning = { Begun O.Told };

    ghost beginning_code = { begun_code setup_code O.told_code };

    ghost start = { begun_in O.told };

    // What has come, taken in or not.
    ghost known = { λ setup g. start_of_arrivals setup g.came };

    ghost stands = { StandsAt O.did O.is_over };

    // What the outside tells of it.
    ghost handed = { λ g setup log. HasHanded O.did g.begun g.outside setup g.came log };

    // A live run may last.
    ghost keeps_all = { false };

    ghost is_ready = { CanServe };

    fn reserve(&mut self, call: &Call) -> Result<(), AllocError>
        requires shaped { IsShaped (request call.now) }
        ensures start { (setup : Setup) → begun_in O.told setup self.new ≡ begun_in O.told setup self.old }
        ensures stands { (setup : Setup) (log : List Entry) → StandsAt O.did O.is_over self.old setup log → StandsAt O.did O.is_over self.new setup log }
        ensures known { (setup : Setup) (log : List Entry) → StandsAt O.did O.is_over self.old setup log → GoesOn log (start_of_arrivals setup self.old.came) (start_of_arrivals setup self.new.came) }
        ensures handed { (setup : Setup) (log : List Entry) (lengths : List ℕ) → StandsAt O.did O.is_over self.old setup log → HasHanded O.did self.old.begun self.old.outside setup self.old.came log lengths → HasHanded O.did self.new.begun self.new.outside setup self.new.came log lengths }
        ensures ready { OnOk result (CanServe self.new (request call.now)) }
        ensures over { self.old.over ≡ true → self.new.over ≡ true }
        ensures came { self.old.over ≡ true → self.new.came ≡ self.old.came }
        ensures kept { KeepsOn self.old self.new }
    {
        let syscall = Syscall::of(call.nr);
        let until = self.side.until(syscall, call);
        self.intake = learn(
            &mut self.outside,
            self.alloc,
            &mut self.came,
            self.used,
            &mut self.over,
            &self.side,
            syscall,
            call,
            until,
        )?;
        let rest = rest(&self.came, self.used);
        self.side
            .reserve(syscall, call, first(rest, self.intake.count))?;
        Ok(())
    }

    fn answer(&mut self, call: &Call, out: &mut Bytes) -> i32
        requires ready { CanServe self.old (request call.now) }
        requires shaped { IsShaped (request call.now) }
        requires comes { MayCome (StandsAt O.did O.is_over self.old) (request call.now) }
        requires capacity { MOST_BYTES ≤ out.old.capacity }
        ensures start { (setup : Setup) → begun_in O.told setup self.new ≡ begun_in O.told setup self.old }
        ensures known { (setup : Setup) → start_of_arrivals setup self.new.came ≡ start_of_arrivals setup self.old.came }
        ensures answer { IsAnswer (λ setup. start_of_arrivals setup self.old.came) (StandsAt O.did O.is_over self.old) (StandsAt O.did O.is_over self.new) (request call.now) result out.new.bytes }
        ensures handed { (setup : Setup) (log : List Entry) (lengths : List ℕ) → StandsAt O.did O.is_over self.old setup log → HasHanded O.did self.old.begun self.old.outside setup self.old.came log lengths → HasHanded O.did self.new.begun self.new.outside setup self.new.came (log ++ served (start_of_arrivals setup self.old.came) log (request call.now) ∷ []) lengths }
        ensures capacity { out.new.capacity ≡ out.old.capacity }
        ensures few { length out.new.bytes ≤ most_out (request call.now) }
        ensures over { self.new.over ≡ self.old.over }
        ensures came { self.new.came ≡ self.old.came }
        ensures kept { KeepsOn self.old self.new }
        ensures gone { self.old.keeps ≡ false → self.new.room.disk.gone ≡ length self.new.room.disk.state.console }
    {
        let rest = rest(&self.came, self.used);
        let Intake {
            syscall,
            until,
            count,
            vain,
        } = self.intake;
        self.side.take_in(first(rest, count), vain);
        let outcome = self.side.answer_by(syscall, call, until, out);
        say(&mut self.outside, outcome.did, call.payload.as_slice());
        self.side.let_go_unless(self.keeps, outcome.did);
        self.used += count;
        pass(&mut self.came, self.used);
        outcome.ret
    }

    fn hands_over(&mut self, length: usize) -> bool
        ensures start { (setup : Setup) → begun_in O.told setup self.new ≡ begun_in O.told setup self.old }
        ensures stands { (setup : Setup) (log : List Entry) → StandsAt O.did O.is_over self.old setup log → StandsAt O.did O.is_over self.new setup log }
        ensures known { (setup : Setup) → start_of_arrivals setup self.new.came ≡ start_of_arrivals setup self.old.came }
        ensures handed { (setup : Setup) (log : List Entry) (lengths : List ℕ) → HasHanded O.did self.old.begun self.old.outside setup self.old.came log lengths → HasHanded O.did self.new.begun self.new.outside setup self.new.came log (with_hand result length lengths) }
        ensures over { self.new.over ≡ self.old.over }
        ensures came { self.new.came ≡ self.old.came }
        ensures kept { KeepsOn self.old self.new }
    {
        self.outside.hands_over(length)
    }

    fn keeps(&self) -> bool {
        false
    }

    fn is_over(&self) -> bool {
        self.side.host.is_over()
    }
}
