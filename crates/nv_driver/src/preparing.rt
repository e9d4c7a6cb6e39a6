// How the files of a run are read and loaded.
ghost use Rattle.std.specs.Prelude.{◌≡◌, ◌≤◌, ◌<◌, List, ℕ, Some, Ok, IsTrue, IfOk, IfErr, OnOk, length, option_map, slice_get};
ghost use Rattle.nv_bpf.specs.Texts.{filter_of};
ghost use Rattle.nv_guest.specs.Guest.{machine_of, one_thread};
ghost use Rattle.nv_script.specs.Scripts.{script_of, is_script};
ghost use Rattle.nv_script.specs.Views.{setup_of};
ghost use Rattle.nv_threads.specs.Threads.{threads, started};
ghost use Rattle.nv_replay.specs.Version.{IsFresh};
ghost use Rattle.nv_replay.specs.Account.{AreFresh};
ghost use Rattle.nv_driver.specs.Seen.{limits_view, names_view, rules_view, script_view, plan_view};
ghost use Rattle.nv_driver.specs.Prepared.{Loads, version_from};
ghost use Rattle.nv_driver.specs.Found.{IsReadWithin, script_limit};
ghost use Rattle.nv_driver.specs.Refusals.{Refuses, IsPlanned, IsPrepared};
ghost use Rattle.nv_driver.specs.inner.Refusals.{parts_with, ReadRefused, IsScriptRefusal, IsFilterRefusal, HasRules, RulesRefused, IsVersionRefusal, VersionRefused, VersionsRefused, HasLoaded, AreLoaded, IsRest, RestRefused};

use crate::asked::{Run, ScriptFile};
use crate::file_limits::{FILE_LIMIT, script_limit};
use crate::limits::Limits;
use crate::refusal::{Cause, Place, Refusal};
use nv_arriving::ScriptedKernel;
use nv_bpf::{Filter, FilterFault};
use nv_elf::ElfFault;
use nv_guest::{Guest, GuestFault};
use nv_outside::{Files, Got};
use nv_replay::Version;
use nv_script::{Script, ScriptFault};
use nv_threads::Process;
use std::alloc::Global;

/// A kernel that has served nothing, the filter that judges followers, versions that haven't run, and the lengths of the
/// log at which the leader hands over.
#[derive(Drop)]
pub struct Prepared {
    pub kernel: ScriptedKernel,
    pub rules: Option<Filter>,
    pub versions: Vec<Version>,
    pub hands: Vec<u32>,
}

// Reads a whole file of at most so many bytes.
pub fn read_file<F: Files>(
    alloc: Global,
    files: &mut F,
    name: &str,
    place: Place,
    limit: u32,
) -> Result<Vec<u8>, Refusal>
    ensures bytes { IfOk result (λ bytes. IsReadWithin limit bytes.items (F.holds files.old name.now)) }
    ensures refused { IfErr result (λ refusal. ReadRefused refusal place limit (F.holds files.old name.now)
        (F.faults files.old) (F.faults files.new) (F.taken files.old) (F.taken files.new)) }
    ensures same { (name : List ℕ) → F.holds files.new name ≡ F.holds files.old name }
    ensures faults { OnOk result (F.faults files.new ≡ F.faults files.old) }
    ensures taken { F.taken files.old ≤ F.taken files.new }
{
    match files.read(alloc, name, limit)? {
        Got::Bytes(bytes) => Ok(bytes),
        Got::Long => Err(Refusal::Input(place, Cause::Long)),
        Got::Failed => Err(Refusal::Unreadable(place)),
    }
}

// Reads the file that says what a run begins with.
pub fn script_bytes<F: Files>(
    alloc: Global,
    files: &mut F,
    script: ScriptFile<'_>,
) -> Result<Vec<u8>, Refusal>
    ensures bytes { IfOk result (λ bytes. IsReadWithin (script_limit (script_view script.entry)) bytes.items (F.holds files.old script.entry.name.now)) }
    ensures refused { IfErr result (λ refusal. ReadRefused refusal Place.Script (script_limit (script_view script.entry)) (F.holds files.old script.entry.name.now)
        (F.faults files.old) (F.faults files.new) (F.taken files.old) (F.taken files.new)) }
    ensures same { (name : List ℕ) → F.holds files.new name ≡ F.holds files.old name }
    ensures faults { OnOk result (F.faults files.new ≡ F.faults files.old) }
    ensures taken { F.taken files.old ≤ F.taken files.new }
{
    let limit = script_limit(script);
    read_file(alloc, files, script.name, Place::Script, limit)
}

pub fn script_in(alloc: Global, bytes: &[u8]) -> Result<Script, Refusal>
    ensures script { IfOk result (λ script. script_of bytes.now ≡ Ok (setup_of script)) }
    ensures sound { IfOk result (λ script. IsTrue (is_script (setup_of script))) }
    ensures refused { IfErr result (λ refusal. IsScriptRefusal refusal bytes.now) }
{
    match nv_script::read(alloc, bytes) {
        Ok(script) => Ok(script),
        Err(ScriptFault::Memory) => Err(Refusal::Memory),
        Err(fault) => Err(Refusal::Input(Place::Script, Cause::Script(fault))),
    }
}

pub fn filter_in(alloc: Global, bytes: &[u8]) -> Result<Filter, Refusal>
    ensures filter { IfOk result (λ filter. filter_of 4096 bytes.now ≡ Ok filter) }
    ensures refused { IfErr result (λ refusal. IsFilterRefusal refusal bytes.now) }
{
    match nv_bpf::read(alloc, bytes) {
        Ok(filter) => Ok(filter),
        Err(FilterFault::Memory) => Err(Refusal::Memory),
        Err(fault) => Err(Refusal::Input(Place::Rules, Cause::Filter(fault))),
    }
}

// Reads the rules, where they are named.
pub fn read_rules<F: Files>(
    alloc: Global,
    files: &mut F,
    name: Option<&str>,
) -> Result<Option<Filter>, Refusal>
    ensures rules { IfOk result (λ rules. HasRules rules (F.holds files.old) (rules_view name.entry)) }
    ensures refused { IfErr result (λ refusal. RulesRefused refusal (F.holds files.old) (rules_view name.entry)
        (F.faults files.old) (F.faults files.new) (F.taken files.old) (F.taken files.new)) }
    ensures same { (name : List ℕ) → F.holds files.new name ≡ F.holds files.old name }
    ensures faults { OnOk result (F.faults files.new ≡ F.faults files.old) }
    ensures taken { F.taken files.old ≤ F.taken files.new }
{
    let Some(name) = name else {
        return Ok(None);
    };
    let bytes = read_file(alloc, files, name, Place::Rules, FILE_LIMIT)?;
    match filter_in(alloc, &bytes) {
        Ok(filter) => Ok(Some(filter)),
        Err(refusal) => Err(refusal),
    }
}

// Loads a version file.
#[tactic(auto, unfolding(crate::specs::Prepared::version_from))]
pub fn load(
    alloc: Global,
    limits: Limits,
    script: &Script,
    bytes: &[u8],
    place: Place,
) -> Result<Guest, Refusal>
    requires { length bytes.now ≤ FILE_LIMIT }
    ensures guest { IfOk result (λ guest. version_from (limits_view limits) (setup_of script.now) bytes.now ≡ Loads (machine_of guest)) }
    ensures alone { IfOk result (λ guest. guest ≡ one_thread (machine_of guest)) }
    ensures refused { IfErr result (λ refusal. IsVersionRefusal (limits_view limits) (setup_of script.now) refusal place bytes.now) }
{
    let program = match nv_elf::read(alloc, bytes) {
        Ok(program) => program,
        Err(ElfFault::Memory) => return Err(Refusal::Memory),
        Err(fault) => return Err(Refusal::Input(place, Cause::Elf(fault))),
    };
    match Guest::make(alloc, &program, &script.arguments, limits.memory) {
        Ok(guest) => Ok(guest),
        Err(GuestFault::Memory) => Err(Refusal::Memory),
        Err(fault) => Err(Refusal::Input(place, Cause::Guest(fault))),
    }
}

// The version with this number, of a guest that hasn't run and has so many instructions, or so many after each answer; it may go
// on ahead of the log, or never does, and the later calls are in its table, or aren't.
pub fn version(
    alloc: Global,
    budget: u32,
    renews: bool,
    index: u32,
    guest: Guest,
    eager: bool,
    polls: bool,
) -> Result<Version, Refusal>
    requires alone { guest ≡ one_thread (machine_of guest) }
    requires budget { budget ≤ 1_000_000_000 }
    ensures fresh { IfOk result (IsFresh threads index) }
    ensures process { IfOk result (λ version. version.at.process ≡ started (machine_of guest) budget renews polls) }
    ensures eager { IfOk result (λ version. version.eager ≡ eager) }
    ensures refused { IfErr result (λ refusal. refusal ≡ Refusal.Memory) }
{
    let process = Process::make(alloc, guest, budget, renews, polls)?;
    let version = Version::make_eager(alloc, index, process, eager)?;
    Ok(version)
}

// Reads one version file, loads it and makes the version with this number.
fn read_version<F: Files>(
    alloc: Global,
    files: &mut F,
    limits: Limits,
    script: &Script,
    name: &str,
    index: u32,
) -> Result<Version, Refusal>
    ensures version { IfOk result (λ version. HasLoaded (limits_view limits) (setup_of script.now) version (F.holds files.old name.now)) }
    ensures fresh { IfOk result (IsFresh threads index) }
    ensures refused { IfErr result (λ refusal. VersionRefused (limits_view limits) (setup_of script.now) refusal (Place.Version index) (F.holds files.old name.now)
        (F.faults files.old) (F.faults files.new) (F.taken files.old) (F.taken files.new)) }
    ensures same { (name : List ℕ) → F.holds files.new name ≡ F.holds files.old name }
    ensures faults { OnOk result (F.faults files.new ≡ F.faults files.old) }
    ensures taken { F.taken files.old ≤ F.taken files.new }
{
    let place = Place::Version(index);
    let bytes = read_file(alloc, files, name, place, FILE_LIMIT)?;
    let guest = load(alloc, limits, script, &bytes, place)?;
    let version = version(
        alloc,
        limits.budget,
        limits.renews,
        index,
        guest,
        true,
        script.polls,
    )?;
    Ok(version)
}

// The name of the version with this number.
fn name_at<'a>(names: &[&'a str], index: usize) -> &'a str
    requires { index < length names.now }
    ensures { slice_get (names_view names.now) index ≡ Some result.now }
{
    names[index]
}

// Reads and loads the versions in order, each before the next is read.
fn read_versions<F: Files>(
    alloc: Global,
    files: &mut F,
    limits: Limits,
    script: &Script,
    names: &[&str],
) -> Result<Vec<Version>, Refusal>
    requires { length names.now ≤ 8 }
    ensures loaded { IfOk result (λ versions. AreLoaded (limits_view limits) (setup_of script.now) versions.items (F.holds files.old) (names_view names.now)) }
    ensures fresh { IfOk result (λ versions. AreFresh threads 0 versions.items) }
    ensures refused { IfErr result (λ refusal. VersionsRefused (limits_view limits) (setup_of script.now) refusal (F.holds files.old) (names_view names.now)
        (F.faults files.old) (F.faults files.new) (F.taken files.old) (F.taken files.new)) }
    ensures faults { OnOk result (F.faults files.new ≡ F.faults files.old) }
{
    let mut versions = Vec::new(alloc);
    for index in 0..names.len() {
        let name = name_at(names, index);
        match read_version(alloc, files, limits, script, name, index as u32) {
            Ok(version) => versions.push(version)?,
            Err(refusal) => return Err(refusal),
        }
    }
    Ok(versions)
}

/// The filter that judges followers, and versions that haven't run.
#[derive(Drop)]
pub struct Rest {
    pub rules: Option<Filter>,
    pub versions: Vec<Version>,
}

// Reads what a run reads after its script: the rules, if they are named, and the versions in order.
pub fn read_rest<F: Files>(
    alloc: Global,
    files: &mut F,
    script: &Script,
    limits: Limits,
    rules_name: Option<&str>,
    names: &[&str],
) -> Result<Rest, Refusal>
    requires { length names.now ≤ 8 }
    ensures ready { IfOk result (λ rest. IsRest (setup_of script.now) rest.rules rest.versions.items (F.holds files.old)
        (parts_with (limits_view limits) (rules_view rules_name.entry) (names_view names.now))) }
    ensures refused { IfErr result (λ refusal. RestRefused refusal (setup_of script.now) (F.holds files.old)
        (parts_with (limits_view limits) (rules_view rules_name.entry) (names_view names.now))
        (F.faults files.old) (F.faults files.new) (F.taken files.old) (F.taken files.new)) }
    ensures faults { OnOk result (F.faults files.new ≡ F.faults files.old) }
{
    let rules = match read_rules(alloc, files, rules_name) {
        Ok(rules) => rules,
        Err(refusal) => return Err(refusal),
    };
    match read_versions(alloc, files, limits, script, names) {
        Ok(versions) => Ok(Rest { rules, versions }),
        Err(refusal) => Err(refusal),
    }
}

/// Reads the script, the rules if they are named, and the versions in order, and loads them. Each file is checked before the next is read.
pub fn prepare<F: Files>(alloc: Global, files: &mut F, plan: &Run<'_>) -> Result<Prepared, Refusal>
    ensures ready { IfOk result (λ ready. IsPrepared ready.kernel.log ready.kernel.setup ready.rules ready.versions.items (F.holds files.old) (plan_view plan.now)) }
    ensures planned { IfOk result (λ ready. IsPlanned ready.kernel.setup ready.hands.items) }
    ensures refused { IfErr result (λ refusal. Refuses refusal (F.holds files.old) (plan_view plan.now)
        (F.faults files.old) (F.faults files.new) (F.taken files.old) (F.taken files.new)) }
    ensures faults { OnOk result (F.faults files.new ≡ F.faults files.old) }
{
    let bytes = script_bytes(alloc, files, plan.script)?;
    let script = match script_in(alloc, &bytes) {
        Ok(script) => script,
        Err(refusal) => return Err(refusal),
    };
    match read_rest(
        alloc,
        files,
        &script,
        plan.limits,
        plan.rules,
        &plan.versions,
    ) {
        Ok(rest) => {
            // After the versions: so its want of memory comes after every file was judged.
            let kernel = ScriptedKernel::make(alloc, &script)?;
            let Rest { rules, versions } = rest;
            Ok(Prepared {
                kernel,
                rules,
                versions,
                hands: script.hands,
            })
        }
        Err(refusal) => Err(refusal),
    }
}
