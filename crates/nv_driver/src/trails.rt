// How the files of a version that follows a trace are read.
ghost use Rattle.std.specs.Prelude.{◌≡◌, ◌≤◌, List, ℕ, Ok, IsTrue, IfOk, IfErr, OnOk};
ghost use Rattle.nv_driver.specs.Seen.{limits_view, script_view, trail_view};
ghost use Rattle.nv_script.specs.Scripts.{is_script};
ghost use Rattle.nv_script.specs.Views.{setup_of};
ghost use Rattle.nv_arriving.specs.Scripted.{start_from};
ghost use Rattle.nv_trace.specs.Checks.{AreSoundEvents};
ghost use Rattle.nv_driver.specs.Found.{FILE_LIMIT, TRACE_LIMIT, script_limit};
ghost use Rattle.nv_driver.specs.Traced.{script_at, log_at, machine_traced, trace_of_file, trail_limits};
ghost use Rattle.nv_driver.specs.inner.Trails.{Gives, StepRefused, IsTraceRefusal, TrailRefused, IsFollower, IsTraced};

use crate::asked::{ScriptFile, Trail};
use crate::file_limits::{FILE_LIMIT, TRACE_LIMIT};
use crate::limits::Limits;
use crate::preparing::{load, read_file, read_rules, script_bytes, script_in, version};
use crate::refusal::{Place, Refusal};
use nv_arriving::ScriptedKernel;
use nv_bpf::Filter;
use nv_outside::Files;
use nv_replay::Version;
use nv_script::Script;
use nv_trace::check;
use std::alloc::Global;

/// A version that follows a trace: a kernel that has served the trace's events, the filter that judges the version, and the
/// version, which has followed nothing yet.
#[derive(Drop)]
pub struct TracedVersion {
    pub script: Script,
    pub rules: Option<Filter>,
    pub kernel: ScriptedKernel,
    pub version: Version,
}

fn read_script<F: Files>(
    alloc: Global,
    files: &mut F,
    file: ScriptFile<'_>,
) -> Result<Script, Refusal>
    ensures script { IfOk result (λ script. Gives script_at (script_limit (script_view file.entry)) (F.holds files.old file.entry.name.now) (Ok (setup_of script))) }
    ensures sound { IfOk result (λ script. IsTrue (is_script (setup_of script))) }
    ensures refused { IfErr result (λ refusal. StepRefused refusal Place.Script (script_limit (script_view file.entry)) script_at (F.holds files.old file.entry.name.now)
        (F.faults files.old) (F.faults files.new) (F.taken files.old) (F.taken files.new)) }
    ensures same { (name : List ℕ) → F.holds files.new name ≡ F.holds files.old name }
    ensures faults { OnOk result (F.faults files.new ≡ F.faults files.old) }
    ensures taken { F.taken files.old ≤ F.taken files.new }
{
    let bytes = script_bytes(alloc, files, file)?;
    script_in(alloc, &bytes)
}

// The kernel of the script, where it comes to the events of the trace in these bytes, which it has served.
fn kernel_in(alloc: Global, script: &Script, bytes: &[u8]) -> Result<ScriptedKernel, Refusal>
    requires script { IsTrue (is_script (setup_of script.now)) }
    ensures log { IfOk result (λ kernel. trace_of_file (setup_of script.now) bytes.now ≡ Ok kernel.log) }
    ensures sound { IfOk result (λ kernel. AreSoundEvents (start_from (setup_of script.now)) kernel.log) }
    ensures refused { IfErr result (λ refusal. IsTraceRefusal refusal (setup_of script.now) bytes.now) }
{
    let events = nv_trace::read(alloc, bytes)?;
    let mut kernel = ScriptedKernel::make(alloc, script)?;
    check(&mut kernel, &events)?;
    Ok(kernel)
}

fn read_log<F: Files>(
    alloc: Global,
    files: &mut F,
    name: &str,
    script: &Script,
) -> Result<ScriptedKernel, Refusal>
    requires script { IsTrue (is_script (setup_of script.now)) }
    ensures log { IfOk result (λ kernel. Gives (log_at (setup_of script.now)) TRACE_LIMIT (F.holds files.old name.now) (Ok kernel.log)) }
    ensures sound { IfOk result (λ kernel. AreSoundEvents (start_from (setup_of script.now)) kernel.log) }
    ensures refused { IfErr result (λ refusal. StepRefused refusal Place.Trace TRACE_LIMIT (log_at (setup_of script.now)) (F.holds files.old name.now)
        (F.faults files.old) (F.faults files.new) (F.taken files.old) (F.taken files.new)) }
    ensures same { (name : List ℕ) → F.holds files.new name ≡ F.holds files.old name }
    ensures faults { OnOk result (F.faults files.new ≡ F.faults files.old) }
    ensures taken { F.taken files.old ≤ F.taken files.new }
{
    let bytes = read_file(alloc, files, name, Place::Trace, TRACE_LIMIT)?;
    kernel_in(alloc, script, &bytes)
}

fn limits(trail: &Trail<'_>) -> Limits
    ensures { limits_view result ≡ trail_limits (trail_view trail.now) }
{
    let usual = Limits::usual();
    Limits {
        ring: usual.ring,
        memory: trail.memory,
        budget: trail.budget,
        renews: trail.renews,
        calls: usual.calls,
        threads: usual.threads,
    }
}

// The version of a trail, with so many instructions, or so many after each answer.
fn read_follower<F: Files>(
    alloc: Global,
    files: &mut F,
    trail: &Trail<'_>,
    script: &Script,
    budget: u32,
    renews: bool,
) -> Result<Version, Refusal>
    requires budget { budget ≤ 1_000_000_000 }
    ensures version { IfOk result (λ version. IsFollower (trail_view trail.now) budget renews (setup_of script.now) version (F.holds files.old trail.now.version.now)) }
    ensures refused { IfErr result (λ refusal. StepRefused refusal (Place.Version trail.now.index) FILE_LIMIT (machine_traced (trail_view trail.now) (setup_of script.now))
        (F.holds files.old trail.now.version.now) (F.faults files.old) (F.faults files.new) (F.taken files.old) (F.taken files.new)) }
    ensures faults { OnOk result (F.faults files.new ≡ F.faults files.old) }
{
    let place = Place::Version(trail.index);
    let bytes = read_file(alloc, files, trail.version, place, FILE_LIMIT)?;
    let guest = load(alloc, limits(trail), script, &bytes, place)?;
    let version = version(
        alloc,
        budget,
        renews,
        trail.index,
        guest,
        false,
        script.polls,
    )?;
    Ok(version)
}

/// Reads the script, the rules if they are named, the trace and the version, which has so many instructions, or so many after each answer. Each file is
/// checked before the next is read.
pub fn trace_version<F: Files>(
    alloc: Global,
    files: &mut F,
    trail: &Trail<'_>,
    budget: u32,
    renews: bool,
) -> Result<TracedVersion, Refusal>
    requires budget { budget ≤ 1_000_000_000 }
    ensures ready { IfOk result (λ t. IsTraced (trail_view trail.now) budget renews (F.holds files.old) (setup_of t.script) t.rules t.kernel.log t.version) }
    ensures sound { IfOk result (λ t. IsTrue (is_script (setup_of t.script))) }
    ensures refused { IfErr result (λ refusal. TrailRefused refusal (trail_view trail.now) (F.holds files.old)
        (F.faults files.old) (F.faults files.new) (F.taken files.old) (F.taken files.new)) }
    ensures faults { OnOk result (F.faults files.new ≡ F.faults files.old) }
{
    let script = read_script(alloc, files, trail.script)?;
    let rules = read_rules(alloc, files, trail.rules)?;
    let kernel = read_log(alloc, files, trail.trace, &script)?;
    let version = read_follower(alloc, files, trail, &script, budget, renews)?;
    Ok(TracedVersion {
        script,
        rules,
        kernel,
        version,
    })
}
