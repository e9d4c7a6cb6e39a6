// What answers over a script that lists all that comes.
ghost use Rattle.std.specs.Prelude.{◌≡◌, ℕ, map, slice_index};
ghost use Rattle.nv_sockets.specs.Views.{link_of, gone_of};
ghost use Rattle.nv_arriving.specs.Reserved.{IsKept};

use crate::answering::Guests;
use crate::listed::Nothing;
use nv_calls::{Bytes, Call};
use nv_fs::FileSystem;
use nv_kernel::{Answers, Foretold, FromScript, KeepsAll};
use nv_script::{Outside, Script};
use nv_sockets::Connection;
use std::alloc::{AllocError, Global};

/// The guests' side, where all has come that the script lists, and nothing more comes.
#[derive(Drop)]
pub struct Listed {
    guests: Guests<Nothing>,
}

impl Listed {
    /// The connections, those that the script states first, each with what was written to it.
    pub(crate) fn connections(&self) -> &[Connection]
        requires { IsKept self.now.guests.room }
        ensures links { map link_of result.now ≡ self.now.guests.stage.here.state.net.links }
        ensures gone { (i : ℕ) → slice_index (map gone_of result.now) i ≡ 0 }
    {
        self.guests.connections()
    }

    /// The files, as the calls left them.
    pub fn files(&self) -> &FileSystem
        ensures { result.now.state ≡ self.now.guests.stage.here.state.own.files }
    {
        self.guests.files()
    }
}

impl Answers for Listed {
    ghost use Rattle.std.specs.Prelude.{◌≡◌, [], true};
    ghost use Rattle.nv_kernel.specs.Codes.{setup_code};
    ghost use Rattle.nv_script.specs.Scripts.{Setup};
    ghost use Rattle.nv_arriving.specs.Kernel.{CanServe};
    ghost use Rattle.nv_arriving.specs.Scripted.{start_from};
    ghost use Rattle.nv_arriving.specs.Standing.{StandsListed};

    ghost Beginning = { Setup };

    ghost beginning_code = { setup_code };

    ghost start = { λ setup _. setup };

    // A script tells all that comes.
    ghost known = { λ setup _. start_from setup };

    ghost stands = { λ l. StandsListed ⟦<Nothing as Outside>⟧.did ⟦<Nothing as Outside>⟧.is_over l.guests };

    // No operator's word comes.
    ghost handed = { λ _ _ _ lengths. lengths ≡ [] };

    ghost is_ready = { λ l. CanServe l.guests };

    ghost keeps_all = { true };

    fn reserve(&mut self, call: &Call) -> Result<(), AllocError> {
        self.guests.reserve(call)
    }

    fn answer(&mut self, call: &Call, out: &mut Bytes) -> i32 {
        self.guests.answer(call, out)
    }

    fn keeps(&self) -> bool {
        true
    }

    fn is_over(&self) -> bool {
        self.guests.is_over()
    }
}

impl FromScript for Listed {
    fn make(alloc: Global, script: &Script) -> Result<Listed, AllocError> {
        let guests = Guests::listed(alloc, script)?;
        Ok(Listed { guests })
    }
}

impl KeepsAll for Listed {
    ghost use Rattle.std.specs.Prelude.{refl};

    ghost all_kept = { refl };

    fn console(&self) -> &[u8] {
        self.guests.console()
    }
}

impl Foretold for Listed {
    ghost use Rattle.std.specs.Prelude.{refl};
    ghost use Rattle.nv_arriving.specs.Scripted.{start_from};

    ghost told = { start_from };

    ghost nothing_new = { λ setup _. refl };
}
