//! A live run over a kernel that keeps its whole log and all that it says, as the plain monitor wants it.
ghost use Rattle.std.specs.Prelude.{◌≡◌, [], IsTrue, IfOk};
ghost use Rattle.nv_script.specs.Scripts.{is_script};
ghost use Rattle.nv_script.specs.Views.{setup_of};

use nv_arriving::Guests;
use nv_calls::{Bytes, Call};
use nv_kernel::{Answers, KeepsAll, Kernel};
use nv_live::Telling;
use nv_script::{Outside, Script};
use std::alloc::{AllocError, Global};

/// What answers a live run's calls, for a kernel that keeps each event, and lets nothing go that it says.
#[derive(Drop)]
pub struct Kept<O: Outside> {
    pub guests: Guests<O>,
}

/// A kernel over it.
pub type KeptKernel<O> = Kernel<Kept<O>>;

/// A kernel that has served nothing, over what the script gives and this outside.
pub fn make_kept<O: Outside + Telling + Send>(
    alloc: Global,
    script: &Script,
    outside: O,
) -> Result<KeptKernel<O>, AllocError>
    requires script { IsTrue (is_script (setup_of script.now)) }
    ensures { IfOk result (λ k. k.log ≡ []) }
{
    let guests = Guests::make(alloc, script, outside, true)?;
    match Kernel::over(alloc, script, Kept { guests }) {
        Ok(kernel) => Ok(kernel),
        Err(_) => Err(AllocError),
    }
}

impl<O: Outside + Telling + Send> Answers for Kept<O> {
    ghost use Rattle.std.specs.Prelude.{◌≡◌, [], true};
    ghost use Rattle.nv_kernel.specs.Codes.{setup_code};
    ghost use Rattle.nv_arriving.specs.Arriving.{start_of_arrivals};
    ghost use Rattle.nv_arriving.specs.Beginnings.{begun_code};
    ghost use Rattle.nv_arriving.specs.Kernel.{Begun, CanServe, begun_in};
    ghost use Rattle.nv_run_tests.specs.Keeping.{StandsKept};

    ghost Beginning = { Begun O.Told };

    ghost beginning_code = { begun_code setup_code O.told_code };

    ghost start = { λ setup k. begun_in O.told setup k.guests };

    ghost known = { λ setup k. start_of_arrivals setup k.guests.came };

    ghost stands = { λ k. StandsKept O.did O.is_over k.guests };

    // It is asked for no hand-over.
    ghost handed = { λ _ _ _ lengths. lengths ≡ [] };

    ghost keeps_all = { true };

    ghost is_ready = { λ k. CanServe k.guests };

    fn reserve(&mut self, call: &Call) -> Result<(), AllocError> {
        self.guests.reserve(call)
    }

    fn answer(&mut self, call: &Call, out: &mut Bytes) -> i32 {
        self.guests.answer(call, out)
    }

    fn keeps(&self) -> bool {
        true
    }

    fn is_over(&self) -> bool {
        self.guests.is_over()
    }
}

impl<O: Outside + Telling + Send> KeepsAll for Kept<O> {
    ghost use Rattle.std.specs.Prelude.{refl};

    ghost all_kept = { refl };

    fn console(&self) -> &[u8] {
        self.guests.console()
    }
}
