// How a call ends: its status.
ghost use Rattle.std.specs.Prelude.{◌≡◌, count_by, map};
ghost use Rattle.std.specs.List.{list_any};
ghost use Rattle.nv_replay.specs.Follow.{is_exited};
ghost use Rattle.nv_replay.specs.Lead.{is_memory};
ghost use Rattle.nv_replay.specs.Version.{standing_of};
ghost use Rattle.nv_driver.specs.Account.{run_status};
ghost use Rattle.nv_driver.specs.Due.{Says};
ghost use Rattle.nv_driver.specs.Outcome.{ended_with};

use nv_outside::{Put, Sink, WriteFailed, put_all};
use nv_replay::{Fate, Version};

/// Refused words.
pub const USAGE: u8 = 2;

/// Want of memory.
pub const MEMORY: u8 = 3;

/// A file that is refused.
pub const INPUT: u8 = 4;

/// A file that can't be read.
pub const READ_FAULT: u8 = 5;

/// A write that failed.
pub const WRITE_FAULT: u8 = 6;

const STARVED: u8 = 7;

/// The status of a text that was put: its own, or that of a write fault.
pub fn ended(put: Put, status: u8) -> u8
    ensures { result ≡ ended_with put status }
{
    match put {
        Ok(()) => status,
        Err(WriteFailed) => WRITE_FAULT,
    }
}

/// Writes a line that ends with this status.
pub fn put_line<S: Sink>(sink: &mut S, line: &[u8], line_status: u8) -> u8
    ensures { Says line.now line_status (S.told sink.old) (S.faults sink.old) result (S.told sink.new) (S.faults sink.new) }
{
    let put = put_all(sink, line);
    ended(put, line_status)
}

fn has_exited(version: &Version) -> bool
    ensures { result ≡ is_exited (standing_of version.now).fate }
{
    matches!(version.standing().fate, Some(Fate::Exited(_)))
}

fn wanted_memory(version: &Version) -> bool
    ensures { result ≡ is_memory (standing_of version.now).fate }
{
    matches!(version.standing().fate, Some(Fate::Memory))
}

fn any_exited(versions: &[Version]) -> bool
    ensures { result ≡ list_any (λ version. is_exited (standing_of version).fate) versions.now }
{
    versions.iter().any(|version| has_exited(version))
}

fn any_wanted_memory(versions: &[Version]) -> bool
    ensures { result ≡ list_any (λ version. is_memory (standing_of version).fate) versions.now }
{
    versions.iter().any(|version| wanted_memory(version))
}

fn exited(versions: &[Version]) -> bool
    ensures { result ≡ list_any (λ line. is_exited line.fate) (map standing_of versions.now) }
{
    any_exited(versions)
}

/// Whether a version wanted memory.
pub fn starved(versions: &[Version]) -> bool
    ensures { result ≡ list_any (λ line. is_memory line.fate) (map standing_of versions.now) }
{
    any_wanted_memory(versions)
}

/// The status of a run.
pub fn status(versions: &[Version]) -> u8
    ensures { result ≡ run_status (map standing_of versions.now) }
{
    if exited(versions) {
        0
    } else if starved(versions) {
        STARVED
    } else {
        1
    }
}

/// How many versions have exited.
pub fn count_exited(versions: &[Version]) -> usize
    ensures { result ≡ count_by (λ version. is_exited (standing_of version).fate) versions.now }
{
    let mut count = 0;
    for version in versions {
        if has_exited(version) {
            count += 1;
        }
    }
    count
}
