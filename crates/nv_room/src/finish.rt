//! How a room ends: every version's seat comes back, and the kernel is taken out of its slot.
ghost use Rattle.std.specs.Prelude.{◌≡◌, ℕ, ◌+◌, ◌<◌, ◌≤◌, [], length, map};
ghost use Rattle.nv_calls.specs.Logs.{IsLegal, IsLawful};
ghost use Rattle.nv_words.specs.Spelling.{spell};
ghost use Rattle.nv_room.specs.declared.view.Role.TheVariants.{Gone as IsGone};
ghost use Rattle.nv_room.specs.Seats.{versions_of, origin, with_ended};
ghost use Rattle.nv_room.specs.Lefts.{LeftsOf, IsEach, Counted, AllTell};

use crate::plays::TakeBack;
use crate::room::{Left, Room};
use crate::rule::RoomRule;
use crate::view::{Layout, View};
use atomic_table::{Seat, Table};
use nv_calls::SyscallKernel;
use std::alloc::Global;

type Board<K> = Table<Option<K>, View<K>, Layout<K>, RoomRule<K>, Global>;

/// What is left of a room: the kernel, and for each version how many events its seat saw.
#[derive(Drop)]
pub struct Ended<K: SyscallKernel> {
    pub kernel: K,
    pub seen: Vec<u32>,
}

// The seats come back to this one.
fn join_all<K: SyscallKernel>(
    table: &Board<K>,
    seat: &mut Seat<Option<K>, View<K>>,
    counts: &mut Vec<u32>,
    mut left: Vec<Left<K>>,
)
    requires seat { (seat.old.table_id ≡ table.now.shared.table_id) × (seat.old.me.0.role ≡ IsGone) × (0 < table.now.shared.table_id.words) }
    requires left { LeftsOf (length counts.old.items) table.now.shared.table_id left.items }
    ensures same { (seat.new.table_id ≡ seat.old.table_id) × (seat.new.id ≡ seat.old.id) × (seat.new.me.0 ≡ with_ended seat.old.me.0 seat.new.me.0.ended) }
    ensures counts { Counted left.items seat.new.me.0.ended counts.old.items counts.new.items }
{
    while let Some(one) = left.pop() {
        let Left {
            seat: other,
            station: _,
            version,
            seen,
        } = one;
        counts[version as usize] = seen;
        table.shared.join_seat::<TakeBack>(seat, other);
    }
}

impl<K: SyscallKernel> Room<K> {
    /// Every version's seat has left. The kernel has the whole history; each seat's seen list is a prefix of it,
    /// what it has read of a further event begins the event that follows, and the spans that the versions led
    /// tile it in order of station. At the end of those that were given up where no length is planned the kernel had asked for
    /// it, and nowhere else. It takes no memory.
    pub fn finish(self, mut left: Vec<Left<K>>) -> Ended<K>
        requires { IsEach self left.items }
        ensures start { K.start result.kernel ≡ K.start (origin self) }
        ensures legal { IsLegal (K.known result.kernel) (K.log result.kernel) }
        ensures lawful { IsLawful (K.log result.kernel) }
        ensures left { AllTell self result.kernel (map spell (K.log result.kernel)) result.seen.items left.items }
        ensures wide { length result.seen.items ≡ versions_of self }
    {
        let Room {
            table,
            stations: _,
            versions: _,
            places: _,
            on_demand: _,
            mut counts,
        } = self;
        let Some(base) = left.pop() else {
            unreachable!()
        };
        let Left {
            mut seat,
            station: _,
            version,
            seen,
        } = base;
        join_all(&table, &mut seat, &mut counts, left);
        counts[version as usize] = seen;
        let mut closed = table.close_with(seat);
        let Some(kernel) = closed.take(0) else {
            unreachable!()
        };
        closed.free();
        let _end = kernel.ended();
        Ended {
            kernel,
            seen: counts,
        }
    }
}
