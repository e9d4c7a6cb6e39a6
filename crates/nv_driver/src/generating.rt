// The large run that a number makes.
ghost use Rattle.std.specs.Prelude.{◌≡◌, ◌≤◌, ◌<◌, All, IfOk, IfErr, IsTrue, length};
ghost use Rattle.nv_gen.specs.Made.{script, rules};
ghost use Rattle.nv_gen.specs.Texts.{bare, asks_beside_writes};
ghost use Rattle.nv_replay.specs.Account.{AreFresh};
ghost use Rattle.nv_replay.specs.Version.{IsFresh};
ghost use Rattle.nv_script.specs.Scripts.{is_script};
ghost use Rattle.nv_script.specs.Views.{setup_of};
ghost use Rattle.nv_threads.specs.Threads.{threads};
ghost use Rattle.nv_driver.specs.Generated.{IsGenerated};
ghost use Rattle.nv_driver.specs.inner.Generated.{IsFrom, AreFrom, Runs};
ghost use Rattle.nv_driver.specs.Refusals.{IsPlanned};
ghost use Rattle.nv_driver.specs.declared.refusal.Refusal.TheVariants.{Memory};

use crate::limits::Limits;
use crate::preparing::{Prepared, filter_in, load, script_in, version};
use crate::refusal::{Place, Refusal};
use nv_arriving::ScriptedKernel;
use nv_bpf::Filter;
use nv_gen::{rules_are_read, script_is_read, versions_fit_the_default_memory};
use nv_replay::Version;
use nv_script::Script;
use std::alloc::Global;

// The script of a made run, which is one.
fn read_script(alloc: Global, bytes: &[u8]) -> Result<Script, Refusal>
    requires { bytes.now ≡ script }
    ensures script { IfOk result (λ script. setup_of script ≡ bare) }
    ensures sound { IfOk result (λ script. IsTrue (is_script (setup_of script))) }
    ensures memory { IfErr result (λ refusal. refusal ≡ Memory) }
{
    script_is_read();
    match script_in(alloc, bytes) {
        Ok(script) => Ok(script),
        Err(Refusal::Memory) => Err(Refusal::Memory),
        Err(_) => unreachable!(),
    }
}

// The rules of a made run, which are a filter.
fn read_rules(alloc: Global, bytes: &[u8]) -> Result<Filter, Refusal>
    requires { bytes.now ≡ rules }
    ensures filter { IfOk result (λ filter. filter ≡ asks_beside_writes) }
    ensures memory { IfErr result (λ refusal. refusal ≡ Memory) }
{
    rules_are_read();
    match filter_in(alloc, bytes) {
        Ok(filter) => Ok(filter),
        Err(Refusal::Memory) => Err(Refusal::Memory),
        Err(_) => unreachable!(),
    }
}

// The version of a made file, whose program has room in a guest.
fn read_version(alloc: Global, script: &Script, file: &[u8], index: u32) -> Result<Version, Refusal>
    requires script { setup_of script.now ≡ bare }
    requires runs { Runs bare file.now }
    requires short { length file.now ≤ 4_194_304 }
    ensures version { IfOk result (IsFrom bare file.now) }
    ensures fresh { IfOk result (IsFresh threads index) }
    ensures memory { IfErr result (λ refusal. refusal ≡ Memory) }
{
    let limits = Limits::usual();
    match load(alloc, limits, script, file, Place::Version(index)) {
        Ok(guest) => version(
            alloc,
            limits.budget,
            limits.renews,
            index,
            guest,
            true,
            script.polls,
        ),
        Err(Refusal::Memory) => Err(Refusal::Memory),
        Err(_) => unreachable!(),
    }
}

fn read_versions(alloc: Global, script: &Script, files: &[Vec<u8>]) -> Result<Vec<Version>, Refusal>
    requires script { setup_of script.now ≡ bare }
    requires run { All (λ file. Runs bare file.items) files.now }
    requires short { All (λ file. length file.items ≤ 4_194_304) files.now }
    requires few { length files.now ≤ 8 }
    ensures versions { IfOk result (λ versions. AreFrom bare files.now versions.items) }
    ensures fresh { IfOk result (λ versions. AreFresh threads 0 versions.items) }
    ensures memory { IfErr result (λ refusal. refusal ≡ Memory) }
{
    let mut versions = Vec::new(alloc);
    for index in 0..files.len() {
        match read_version(alloc, script, &files[index], index as u32) {
            Ok(version) => versions.push(version)?,
            Err(refusal) => return Err(refusal),
        }
    }
    Ok(versions)
}

/// Makes the run of a number: its kernel, its rules and its versions, with the limits that a run usually has.
pub fn generate(alloc: Global, number: u32) -> Result<Prepared, Refusal>
    requires { number ≤ 999_999 }
    ensures planned { IfOk result (λ ready. IsPlanned ready.kernel.setup ready.hands.items) }
    ensures ready { IfOk result (λ ready. IsGenerated number ready.kernel.log ready.kernel.setup ready.rules ready.versions.items) }
    ensures memory { IfErr result (λ refusal. refusal ≡ Memory) }
{
    versions_fit_the_default_memory();
    let made = nv_gen::make(alloc, number)?;
    let script = read_script(alloc, &made.script)?;
    let rules = read_rules(alloc, &made.rules)?;
    let versions = read_versions(alloc, &script, &made.versions)?;
    let kernel = ScriptedKernel::make(alloc, &script)?;
    Ok(Prepared {
        kernel,
        rules: Some(rules),
        versions,
        hands: script.hands,
    })
}
