//! Runs one version by the plain monitor, and writes its report; bench/worker_speed.py takes the time beside that of `varan run` on one thread.
ghost use Rattle.std.specs.Prelude.{◌≡◌, [], IfSome};
ghost use Rattle.nv_threads.specs.Threads.{threads};
ghost use Rattle.nv_replay.specs.Version.{IsFresh};

use crate::output::Output;
use anyhow::{Result, bail};
use nv_arriving::ScriptedKernel;
use nv_calls::MOST_EVENTS;
use nv_guest::Guest;
use nv_outside::Gathering;
use nv_replay::{Account, Version};
use nv_threads::Process;
use std::alloc::Global;
use std::fs;
use std::io::Print;
use std::rt::Files;

// What `varan run` gives a version, unless its words say otherwise.
const MEMORY: u32 = 1_048_576;

const BUDGET: u32 = 10_000_000;

fn version(alloc: Global, file: &[u8]) -> Option<Version>
    ensures { IfSome result (IsFresh threads 0) }
{
    let program = nv_elf::read(alloc, file).ok()?;
    let guest = Guest::make(alloc, &program, &[], MEMORY).ok()?;
    let process = Process::make(alloc, guest, BUDGET, false, false).ok()?;
    Version::make(alloc, 0, process).ok()
}

fn kernel(alloc: Global) -> Option<ScriptedKernel>
    ensures { IfSome result (λ kernel. kernel.log ≡ []) }
{
    let script = nv_script::read(alloc, b"varan-script 1\n").ok()?;
    ScriptedKernel::make(alloc, &script).ok()
}

fn account(alloc: Global, file: &[u8]) -> Option<Account<ScriptedKernel>> {
    let version = version(alloc, file)?;
    let kernel = kernel(alloc)?;
    let versions = vec![in alloc; version].ok()?;
    let hands = Vec::new(alloc);
    Some(nv_sequence::run(versions, None, kernel, MOST_EVENTS, &hands))
}

fn write<R: Print>(rt: &R, account: &Account<ScriptedKernel>) -> Result<()> {
    let mut sink = Gathering::make(Output::make(rt));
    let put = nv_report::write(&mut sink, account);
    let (_, last) = sink.finish();
    if put.is_err() || last.is_err() {
        bail!("a failed write");
    }
    Ok(())
}

/// Takes the name of a version's file.
pub fn run_words<R: Files + Print + AllocGlobal>(rt: &R, words: &[String]) -> Result<()> {
    let [name] = words else {
        bail!("a version's file");
    };
    run_file(rt, name)
}

/// Runs the version of this file, and writes its report.
pub fn run_file<R: Files + Print + AllocGlobal>(rt: &R, name: &str) -> Result<()> {
    let file = fs::read(rt, name)?;
    let Some(account) = account(rt.alloc(), &file) else {
        bail!("no version, or no memory");
    };
    write(rt, &account)
}
