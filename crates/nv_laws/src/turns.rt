// A turn as the law of runs counts it.
ghost use Rattle.std.specs.Prelude.{ℕ};
ghost use Rattle.nv_threads.specs.Threads.{Proc};
ghost use Rattle.nv_room.specs.declared.view.View.{View};
ghost use Rattle.nv_room.specs.Seats.{places_of, stations_of};
ghost use Rattle.nv_laws.specs.Runs.{ComesTo};
ghost use Rattle.nv_workers.specs.Measure.{turns_left};
ghost use Rattle.nv_workers.specs.Terms.{AreOfRoom, judges_of};
ghost use Rattle.nv_workers.specs.Views.{GoesBySteps, HasView};
ghost use Rattle.nv_workers.specs.Worker.{Works};

use nv_calls::SyscallKernel;
use nv_room::Room;
use nv_workers::{Gate, Terms, Turn, Worker};

/// A turn of a worker. It leaves fewer turns than it found, or the worker's seat waits for another, as its views before and after show; and what
/// it does with the seat are steps of the room.
pub fn counted_turn<K: SyscallKernel, G: Gate>(
    worker: &mut Worker<K>,
    room: &Room<K>,
    terms: &Terms<'_, G>,
) -> Turn
    requires works { (p : Proc) × Works (judges_of terms.now) room.now terms.now.most p worker.old }
    requires terms { AreOfRoom room.now terms.now }
    ensures comes { (v w : View K) → HasView worker.old.seat v → HasView worker.new.seat w → ComesTo (places_of room.now) (turns_left worker.old) (turns_left worker.new) v w }
    ensures steps { GoesBySteps (stations_of room.now) worker.old.seat worker.new.seat }
{
    worker.turn(room, terms)
}
