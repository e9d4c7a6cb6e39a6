//! What the turns of a run go by.

use nv_bpf::Filter;

/// What the turns of a run go by, the same for all of its workers.
#[derive(Drop)]
pub struct Terms<'a, G> {
    /// They judge a follower's call that differs from the leader's.
    pub rules: Option<&'a Filter>,
    /// It is passed before an event is published and after one is consumed.
    pub gate: &'a G,
    /// How many events the log has at most.
    pub most: u32,
    /// The planned lengths: those of the log at which a leader gives up the lead.
    pub hands: &'a [u32],
}
