//! Tests of runs: versions beside each other come to the account of the plain monitor.
//! Tests: `accounts` (workers on threads of the host), `gates` (versions that meet at a gate), `letters` and `arrivals` (what comes from outside while they run),
//! `schedules` (turn by turn, without threads of the host), `ahead` (a version goes on while it waits), `starving` (a version that wanted memory, as JSON),
//! `refusals` (which reservations a `RefusingKernel` refuses).
//! What they stand on: `runs` (runs of small programs), `cases` and `courses` (rooms drawn by a seed, and how they go); the kernels `RefusingKernel`, which is
//! refused memory at the calls that a test names, and `LearningKernel`, which takes from an `Outside`; `Kept`, a live run's answers for a kernel that keeps its log; `Transcript` (what was done outside, as text);
//! `schedule`, which chooses whose turn is next by a `Seed`.
//! Proved: both kernels meet the laws of `SyscallKernel`, the second though it takes from outside in the middle of a run; a transcript has what was taken and
//! said, in its order, or says that memory was wanted; a scheduled run ends within its bound on turns, and its account is the one of versions that have ended;
//! and that the tests do nothing undefined. What they assert is run.
#![tactic(auto)]

#[cfg(test)]
mod accounts;
#[cfg(test)]
mod ahead;
#[cfg(test)]
mod arrivals;
#[cfg(test)]
mod cases;
#[cfg(test)]
mod courses;
#[cfg(test)]
mod gates;
mod kept;
mod learning;
#[cfg(test)]
mod letters;
mod outside;
#[cfg(test)]
mod refusals;
mod refusing;
#[cfg(test)]
mod runs;
mod scheduler;
#[cfg(test)]
mod schedules;
mod seed;
#[cfg(test)]
mod starving;
mod transcript;

/// The instructions that a version may do.
pub const BUDGET: u32 = 10_000;

/// The events that a log may get.
pub const MOST_EVENTS: u32 = 1_000;
