// The kernels over what a script lists, and over what comes from outside.
ghost use Rattle.std.specs.Prelude.{◌≡◌, ◌⊎◌, ℕ, [], false, IsTrue, IfOk, IfErr, map, slice_index};
ghost use Rattle.nv_calls.specs.Logs.{calls_of, connections_of};
ghost use Rattle.nv_script.specs.Scripts.{is_script};
ghost use Rattle.nv_script.specs.Views.{setup_of};
ghost use Rattle.nv_sockets.specs.Views.{link_of, written_of, gone_of};
ghost use Rattle.nv_arriving.specs.Scripted.{start_from, stage_from};
ghost use Rattle.nv_arriving.specs.Arriving.{first_stage, Satisfied};
ghost use Rattle.nv_arriving.specs.Standing.{StandsAt};
ghost use Rattle.nv_arriving.specs.Telling.{Tells, HasHanded};

use crate::answering::Guests;
use crate::guests::GuestSide;
use crate::scripted::Listed;
use nv_fs::FileSystem;
use nv_kernel::Kernel;
use nv_live::Telling;
use nv_script::{Outside, Script};
use nv_sockets::Connection;
use std::alloc::Global;

/// The kernel of a process with sockets, over what a script gives and what comes from outside.
pub type ArrivingKernel<O> = Kernel<Guests<O>>;

/// The kernel of a process with sockets, over what a script of whatever form gives and lists.
pub type ScriptedKernel = Kernel<Listed>;

/// A kernel that has served nothing, over what the script gives and this outside, which comes back where memory is wanted.
pub fn arriving<O: Outside + Telling + Send>(
    alloc: Global,
    script: &Script,
    outside: O,
) -> Result<ArrivingKernel<O>, O>
    requires script { IsTrue (is_script (setup_of script.now)) }
    ensures begun { IfOk result (λ k. (k.log ≡ []) × (k.setup ≡ setup_of script.now) × (k.answers.came ≡ []) × (k.answers.begun ≡ outside) × (k.answers.outside ≡ outside)) }
    ensures handed { IfOk result (λ k. HasHanded O.did k.answers.begun k.answers.outside k.setup k.answers.came k.log []) }
    ensures same { IfErr result (λ given. given ≡ outside) }
{
    let Ok(side) = GuestSide::make(alloc, script) else {
        return Err(outside);
    };
    let guests = Guests::from_side(alloc, script, side, outside, false);
    match Kernel::over(alloc, script, guests) {
        Ok(kernel) => Ok(kernel),
        Err(guests) => Err(guests.into_outside()),
    }
}

/// The outside of a kernel that is done with, with what it tells: all that came was taken in its order, all that the log says was said in its
/// order, and nothing before what its calls take in up to there was taken. No call of the log waited in vain, or nothing more came.
pub fn into_outside<O: Outside + Telling + Send>(kernel: ArrivingKernel<O>) -> O
    ensures is { result ≡ kernel.answers.outside }
    ensures told { Tells O.did kernel.answers.begun kernel.answers.outside kernel.setup kernel.answers.came kernel.log }
    ensures waited { Satisfied (first_stage kernel.setup kernel.answers.came) (calls_of kernel.log) ⊎ O.is_over kernel.answers.outside }
{
    kernel.into_answers().into_outside()
}

/// The connections, those that the script states first, each with what was written to it.
pub fn connections(kernel: &ScriptedKernel) -> &[Connection]
    ensures links { map link_of result.now ≡ (stage_from kernel.now.setup kernel.now.log).here.state.net.links }
    ensures written { map written_of result.now ≡ connections_of (start_from kernel.now.setup) kernel.now.log }
    ensures gone { (i : ℕ) → slice_index (map gone_of result.now) i ≡ 0 }
{
    kernel.answers().connections()
}

/// The files, as the calls served left them.
pub fn files(kernel: &ScriptedKernel) -> &FileSystem
    ensures { result.now.state ≡ (stage_from kernel.now.setup kernel.now.log).here.state.own.files }
{
    kernel.answers().files()
}
