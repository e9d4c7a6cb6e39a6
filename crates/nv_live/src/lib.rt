//! The outside of a live run, both ways: what comes, as arrivals, with its transcript, and what is said.
//! Types: the traits `Source` (what a source tells) and `ReadBeside` (its read); `Live` (plain input and the console's bytes), `Clients` (many clients by lines over one pipe each way), `Stopped`; `LiveRun` (either of them), `Streams`;
//! in memory `MemorySource`.
//! Proved: the arrivals that are handed on are the bytes that the reads gave, cut as plain input is, or what their lines say, each of which may come next,
//! none lost and none made up; the transcript has their lines, each before its arrival is handed on, and behind them, as comments, what was read and not handed on, or a prefix
//! of that where the count of faults rose;
//! what is said stands in its sink, in order, as bytes for the console or as lines, or a prefix where its count of faults rose; once that or the
//! source has stopped nothing more comes; the source is read only once all that it gave is taken, but for a line that has begun, and just what was done by then
//! stands in the sink and the transcript; the leader is told to hand over at most once for each line `hand`, and only at a length that the transcript, as a
//! script, can have. Law: behind the text of a script the transcript's lines are the script with these arrivals and lengths.
#![tactic(auto)]

mod buffer;
mod clients;
mod coming_lines;
mod hand_overs;
mod incoming;
mod laws;
mod lines;
mod live;
mod memory_source;
mod run;
mod said_lines;
mod source;
mod streams;
mod telling;
mod transcript;
mod writer;

pub use clients::Clients;
pub use incoming::Stopped;
pub use laws::notes_are_scripts;
pub use live::Live;
pub use memory_source::MemorySource;
pub use run::LiveRun;
pub use source::{Read, ReadBeside, Source};
pub use streams::Streams;
pub use telling::Telling;
