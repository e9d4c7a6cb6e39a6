// What a filter says of a follower's call.

/// The verdict on a follower's call that differs from the leader's event.
#[derive(Clone, Copy, Debug, PartialEq, Eq)]
pub enum Verdict {
    /// The call is permitted, and is answered without the leader.
    Allow,
    /// The call is answered with this error (errno(3)).
    Errno(u16),
    /// The event is passed over.
    Skip,
    /// The event is consumed, and its reply answers the call.
    Take,
    /// The difference isn't permitted: the filter's whole value.
    Refuse(u32),
}
