//! The change of leader: a lead gives up the kernel, the lowest station left takes it; or it hands over.
//! Types: `Lower`; functions `retire`, `close`, `leave`, `hand`, `lower_gone`, `take`.
//! Proved: each does what its clause says; who takes the lead has seen the whole log, and who handed over reads on with all
//! that it has seen.
#![tactic(auto)]

mod gives;
mod hands;
mod takes;

pub use gives::{close, leave, retire};
pub use hands::hand;
pub use takes::{Lower, lower_gone, take};
