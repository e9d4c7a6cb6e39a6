// The devices as what answers a kernel's calls.
use crate::answers::{Answers, Foretold, FromScript, KeepsAll};
use crate::devices::Devices;
use nv_calls::{Bytes, Call, Syscall};
use nv_script::Script;
use std::alloc::{AllocError, Global};

impl Answers for Devices {
    ghost use Rattle.std.specs.Prelude.{◌≡◌, [], true};
    ghost use Rattle.nv_script.specs.Scripts.{Setup};
    ghost use Rattle.nv_kernel.specs.Codes.{setup_code};
    ghost use Rattle.nv_kernel.specs.Reserved.{state_of, CanAnswer};
    ghost use Rattle.nv_kernel.specs.Serving.{start_of_script};
    ghost use Rattle.nv_kernel.specs.Standing.{StandsAt};
    ghost use Rattle.nv_kernel.specs.Whole.{IsWhole};

    ghost Beginning = { Setup };

    ghost beginning_code = { setup_code };

    ghost start = { λ setup _. setup };

    // A script tells all that comes.
    ghost known = { λ setup _. start_of_script setup };

    ghost stands = { λ d. IsWhole (λ setup log. StandsAt setup log (state_of d)) d.files.gone };

    // No operator's word comes.
    ghost handed = { λ _ _ _ lengths. lengths ≡ [] };

    ghost is_ready = { λ d c. CanAnswer d.files c };

    ghost keeps_all = { true };

    fn reserve(&mut self, call: &Call) -> Result<(), AllocError> {
        self.reserve(Syscall::of(call.nr), call)
    }

    fn answer(&mut self, call: &Call, out: &mut Bytes) -> i32 {
        self.answer(Syscall::of(call.nr), call, out)
    }

    fn keeps(&self) -> bool {
        true
    }

    fn is_over(&self) -> bool {
        self.is_over()
    }
}

impl FromScript for Devices {
    fn make(alloc: Global, script: &Script) -> Result<Devices, AllocError> {
        Devices::make(alloc, script)
    }
}

impl KeepsAll for Devices {
    ghost use Rattle.std.specs.Prelude.{refl};

    ghost all_kept = { refl };

    fn console(&self) -> &[u8] {
        self.files.console()
    }
}

impl Foretold for Devices {
    ghost use Rattle.std.specs.Prelude.{refl};
    ghost use Rattle.nv_kernel.specs.Serving.{start_of_script};

    ghost told = { start_of_script };

    ghost nothing_new = { λ setup _. refl };
}
