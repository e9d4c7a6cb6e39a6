// What workers tell while a run goes on, where they may be held, and who is let go.

use nv_calls::Event;
use nv_replay::Standing;

/// The number of a version of a run, from 0. The station that the version's seat is at may have another number.
#[derive(Clone, Copy, Debug, PartialEq, Eq, Drop)]
pub struct VersionNumber(pub u32);

/// Each call is made by the thread that has the version's turn; `version` is the same also where the version's seat has gone on at
/// another station.
pub trait Gate {
    /// The version leads, and its next event will have this stamp.
    fn before_publish(&self, version: VersionNumber, stamp: u32);

    /// The version has consumed the event with this stamp.
    fn after_take(&self, version: VersionNumber, stamp: u32);

    /// The version's call isn't this event's, and by a rule it was answered otherwise than by the event's reply, or the event was passed
    /// over. So often that has happened to the version by now.
    fn at_rewrite(&self, _version: VersionNumber, _event: &Event, _rewrites: u64) {}

    /// The version leads, and has served this event.
    fn after_publish(&self, _version: VersionNumber, _event: &Event) {}

    /// The version leads from the event with this stamp on, in place of one that led before.
    fn at_lead(&self, _version: VersionNumber, _stamp: u32) {}

    /// The version leads, and its next event finds no place: followers have still to pass those before it. Asked again and again while that lasts.
    fn at_wait(&self, _version: VersionNumber) {}

    /// Whether a version that follows, and has passed so many events, is to be let go before the next one, which is there. Any answer is right; where leaders don't hand
    /// over on demand nobody is asked.
    fn lets_go(&self, _version: VersionNumber, _passed: u32) -> bool {
        false
    }

    /// The version has ended, and leaves next.
    fn at_end(&self, _version: VersionNumber, _standing: &Standing) {}
}

/// The gate that holds nobody.
#[derive(Clone, Copy, Debug)]
pub struct OpenGate;

impl Gate for OpenGate {
    fn before_publish(&self, _version: VersionNumber, _stamp: u32) {}

    fn after_take(&self, _version: VersionNumber, _stamp: u32) {}
}
