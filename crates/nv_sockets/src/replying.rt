// The host as what answers a kernel's calls.
use crate::host::Host;
use nv_calls::{Bytes, Call, Syscall};
use nv_kernel::{Answers, Foretold, FromScript, KeepsAll};
use nv_script::Script;
use std::alloc::{AllocError, Global};

impl Answers for Host {
    ghost use Rattle.std.specs.Prelude.{◌≡◌, [], true};
    ghost use Rattle.nv_script.specs.Scripts.{Setup};
    ghost use Rattle.nv_kernel.specs.Codes.{setup_code};
    ghost use Rattle.nv_sockets.specs.Kernel.{HostStands, CanServe};
    ghost use Rattle.nv_sockets.specs.Serving.{start_of_script};

    ghost Beginning = { Setup };

    ghost beginning_code = { setup_code };

    ghost start = { λ setup _. setup };

    // A script tells all that comes.
    ghost known = { λ setup _. start_of_script setup };

    ghost stands = { λ h setup log. HostStands setup log h };

    // No operator's word comes.
    ghost handed = { λ _ _ _ lengths. lengths ≡ [] };

    ghost is_ready = { CanServe };

    ghost keeps_all = { true };

    fn reserve(&mut self, call: &Call) -> Result<(), AllocError> {
        self.reserve(Syscall::of(call.nr), call)
    }

    fn answer(&mut self, call: &Call, out: &mut Bytes) -> i32 {
        self.answer(Syscall::of(call.nr), call, out).ret
    }

    fn keeps(&self) -> bool {
        true
    }

    fn is_over(&self) -> bool {
        self.is_over()
    }
}

impl FromScript for Host {
    fn make(alloc: Global, script: &Script) -> Result<Host, AllocError> {
        Host::make(alloc, script)
    }
}

impl KeepsAll for Host {
    ghost use Rattle.std.specs.Prelude.{refl};

    ghost all_kept = { refl };

    fn console(&self) -> &[u8] {
        self.devices.files.console()
    }
}

impl Foretold for Host {
    ghost use Rattle.std.specs.Prelude.{refl};
    ghost use Rattle.nv_sockets.specs.Serving.{start_of_script};

    ghost told = { start_of_script };

    ghost nothing_new = { λ setup _. refl };
}
