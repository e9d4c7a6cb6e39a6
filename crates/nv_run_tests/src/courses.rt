//! Runs of a room's versions.
ghost use Rattle.std.specs.Prelude.{◌≡◌, ◌≤◌, ◌<◌, length};

use crate::MOST_EVENTS;
use crate::cases::Case;
use crate::runs::{kernel, versions};
use crate::scheduler::{Ending, schedule};
use crate::seed::Seed;
use nv_kernel::ScriptKernel;
use nv_replay::Account;
use nv_room::Room;
use nv_workers::{OpenGate, Terms, end, gather, staff};
use std::alloc::{AllocError, Global};

/// How a run went.
#[derive(Drop)]
pub enum Course {
    Ended(Account<ScriptKernel>),
    /// Not all versions have ended.
    Cut(Ending),
}

/// The versions of a room beside each other, their turns scheduled by this seed.
pub fn scheduled(alloc: Global, case: &Case, seed: &mut Seed) -> Result<Course, AllocError>
    requires count { (0 < length case.now.texts.items) × (length case.now.texts.items ≤ 8) }
    requires hands { length case.now.hands.items ≤ 8 }
    requires places { (2 ≤ case.now.places) × (case.now.places ≤ 1024) }
{
    let Some(kernel) = kernel(alloc) else {
        return Err(AllocError);
    };
    let Some(versions) = versions(alloc, case.texts.as_slice(), true) else {
        return Err(AllocError);
    };
    let count = case.texts.len() as u32;
    let (room, readers, lead) = Room::make(alloc, kernel, count, case.places, &case.hands)?;
    let mut workers = staff(alloc, versions, readers, lead)?;
    let terms = Terms {
        rules: case.rules.as_ref(),
        gate: &OpenGate,
        most: MOST_EVENTS,
        hands: case.hands.as_slice(),
    };
    match schedule(&mut workers, &room, &terms, seed) {
        Ending::AllLeft => {
            let ran = gather(alloc, room, workers)?;
            Ok(Course::Ended(end(ran)))
        }
        ending => Ok(Course::Cut(ending)),
    }
}
