//! Runs of small programs.
ghost use Rattle.std.specs.Prelude.{◌≡◌, ◌≤◌, ◌<◌, [], IfSome, length, vec_len};
ghost use Rattle.nv_threads.specs.Behaviours.{IsStarted};
ghost use Rattle.nv_threads.specs.Threads.{threads};
ghost use Rattle.nv_replay.specs.Version.{IsFresh};
ghost use Rattle.nv_replay.specs.Account.{AreFresh};

use crate::{BUDGET, MOST_EVENTS};
use nv_bpf::Filter;
use nv_calls::{Recorded, SyscallKernel};
use nv_guest::Guest;
use nv_kernel::ScriptKernel;
use nv_replay::{Account, Version};
use nv_room::Room;
use nv_threads::Process;
use nv_workers::{Gate, Terms, end, run_all, staff};
use std::alloc::{AllocError, Global};
use std::process::Abort;
use std::sync::Wait;
use std::thread::Threads;

const MEMORY: u32 = 147_456;

/// A program that makes so many calls getuid, and then does this.
pub fn program(alloc: Global, calls: u32, then: &str) -> Result<String, AllocError> {
    format!(in alloc;
        ".text\nli s0, {calls}\nnext: li a7, 174\necall\naddi s0, s0, -1\nbne s0, zero, next\n{then}"
    )
}

// A version with this number, which may go on ahead of the log or never does.
fn made(alloc: Global, index: u32, process: Process, eager: bool) -> Option<Version>
    requires { IsStarted threads process }
    ensures { IfSome result (IsFresh threads index) }
{
    if eager {
        Version::make_eager(alloc, index, process, true).ok()
    } else {
        Version::make(alloc, index, process).ok()
    }
}

/// A version with this number that runs this program, which may go on ahead of the log or never does.
pub fn version(alloc: Global, index: u32, text: &str, eager: bool) -> Option<Version>
    ensures { IfSome result (IsFresh threads index) }
{
    let program = nv_asm::assemble(alloc, text.as_bytes()).ok()?;
    let guest = Guest::make(alloc, &program, &[], MEMORY).ok()?;
    let process = Process::make(alloc, guest, BUDGET, false, false).ok()?;
    made(alloc, index, process, eager)
}

/// The versions of these programs, as they are made.
pub fn versions(alloc: Global, texts: &[String], eager: bool) -> Option<Vec<Version>>
    requires { length texts.now ≤ 8 }
    ensures fresh { IfSome result (λ versions. AreFresh threads 0 versions.items) }
    ensures each { IfSome result (λ versions. length versions.items ≡ length texts.now) }
{
    let mut versions = Vec::new(alloc);
    for index in 0..texts.len() {
        let version = version(alloc, index as u32, texts[index].as_str(), eager)?;
        versions.push(version).ok()?;
    }
    Some(versions)
}

/// The kernel over the shortest script.
pub fn kernel(alloc: Global) -> Option<ScriptKernel>
    ensures { IfSome result (λ kernel. kernel.log ≡ []) }
{
    let script = nv_script::read(alloc, b"varan-script 1").ok()?;
    ScriptKernel::make(alloc, &script).ok()
}

/// The account of a run of these programs by this kernel, one after another, none ahead of the log.
pub fn one_by_one<K: SyscallKernel + Recorded>(
    alloc: Global,
    kernel: K,
    texts: &[String],
    rules: Option<&Filter>,
    hands: &Vec<u32>,
) -> Option<Account<K>>
    requires count { length texts.now ≤ 8 }
    requires hands { length hands.now.items ≤ 8 }
    requires kernel { K.log kernel ≡ [] }
{
    let versions = versions(alloc, texts, false)?;
    Some(nv_sequence::run(versions, rules, kernel, MOST_EVENTS, hands))
}

/// The account of a run of these programs by this kernel, beside each other, past this gate.
pub fn beside<R: Threads + Wait + Sync, K: SyscallKernel, G: Gate + Sync>(
    rt: &R,
    alloc: Global,
    kernel: K,
    texts: &[String],
    rules: Option<&Filter>,
    gate: &G,
    hands: &Vec<u32>,
    places: u32,
    threads: u32,
) -> Result<Account<K>, AllocError>
    requires count { (0 < length texts.now) × (length texts.now ≤ 8) }
    requires hands { length hands.now.items ≤ 8 }
    requires places { (2 ≤ places) × (places ≤ 1024) }
    requires kernel { K.log kernel ≡ [] }
{
    let Some(versions) = versions(alloc, texts, true) else {
        return Err(AllocError);
    };
    let (room, readers, lead) = Room::make(alloc, kernel, texts.len() as u32, places, hands)?;
    let workers = staff(alloc, versions, readers, lead)?;
    let terms = Terms {
        rules,
        gate,
        most: MOST_EVENTS,
        hands: hands.as_slice(),
    };
    let ran = run_all(rt, alloc, room, workers, &terms, threads)?;
    Ok(end(ran))
}

/// The whole account as JSON: log, fates, spans, rewrites and output.
pub fn text_of<R: Abort, K: SyscallKernel + Recorded>(
    rt: &R,
    alloc: Global,
    account: Option<Account<K>>,
) -> Vec<u8> {
    let account = account.expect(rt, "a run");
    nv_report::json(alloc, &account).expect(rt, "memory")
}
