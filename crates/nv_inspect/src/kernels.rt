// The kernel at a point of a log.
ghost use Rattle.std.specs.Prelude.{◌≡◌, ◌≤◌, IsTrue, IfOk, length, take};
ghost use Rattle.nv_script.specs.Scripts.{is_script};
ghost use Rattle.nv_script.specs.Views.{setup_of};
ghost use Rattle.nv_arriving.specs.Scripted.{start_from};
ghost use Rattle.nv_trace.specs.Checks.{AreSoundEvents};

use nv_arriving::ScriptedKernel;
use nv_calls::{Recorded, SyscallKernel};
use nv_script::Script;
use std::alloc::{AllocError, Global};

/// A kernel over the same script that has served the first events alone, so many of those that this one has served.
pub fn kernel_after(
    alloc: Global,
    script: &Script,
    kernel: &ScriptedKernel,
    seen: usize,
) -> Result<ScriptedKernel, AllocError>
    requires script { IsTrue (is_script (setup_of script.now)) }
    requires sound { AreSoundEvents (start_from (setup_of script.now)) kernel.now.log }
    requires inside { seen ≤ length kernel.now.log }
    ensures setup { IfOk result (λ k. k.setup ≡ setup_of script.now) }
    ensures log { IfOk result (λ k. k.log ≡ take seen kernel.now.log) }
{
    let mut earlier = ScriptedKernel::make(alloc, script)?;
    for event in &kernel.history()[..seen] {
        earlier.reserve(&event.call)?;
        earlier.serve(&event.call);
    }
    Ok(earlier)
}
