// The kernel, with the log of the calls that it served.
ghost use Rattle.std.specs.Prelude.{◌≡◌, ◌==◌, ◌||◌, [], true, None, is_some, IfOk};
ghost use Rattle.nv_calls.specs.Calls.{request};
ghost use Rattle.nv_run_tests.specs.Given.{is_input, answered, thing_of, left_of};

use crate::outside::{Outside, is_input, wants};
use nv_calls::errors::ENOSYS;
use nv_calls::{Bytes, Call, EXIT, EXIT_GROUP, Event, Recorded, SyscallKernel};
use nv_kernel::spare::{blank, fill, keep, next_end};
use std::alloc::{AllocError, Global};
use std::marker::Model;

/// A kernel of one thread that hands in what comes from outside.
#[derive(Drop)]
pub struct LearningKernel<O: Outside> {
    alloc: Global,
    outside: O,
    /// What was given and isn't handed in yet.
    kept: Option<Option<u8>>,
    log: Vec<Event>,
    out: Bytes,
    spare: Option<Event>,
    over: bool,
    end: Option<u8>,
}

impl<O: Outside> Model for LearningKernel<O> {
    ghost use Rattle.std.specs.Prelude.{◌≡◌, ◌≢◌, ◌<◌, None, map, option_map, vec_len, vec_capacity};
    ghost use Rattle.nv_calls.specs.Calls.{entry};
    ghost use Rattle.nv_kernel.specs.Kernel.{spare_of};
    ghost use Rattle.nv_run_tests.specs.Learning.{KernelState};
    ghost use Rattle.nv_run_tests.specs.Given.{given_by, IsTold};
    ghost use Rattle.nv_run_tests.specs.inner.Sound.{IsSound};

    ghost Value = { KernelState };

    ghost view = { λ k. record { log = map entry k.log.items; kept = k.kept; told = O.told k.outside; spare = option_map spare_of k.spare } };

    ghost invariant = { λ k. IsSound (given_by (map entry k.log.items) k.kept) (map entry k.log.items) k.kept k.over k.end
        × IsTold (O.told k.outside) (given_by (map entry k.log.items) k.kept)
        × (k.spare ≢ None → vec_len k.log < vec_capacity k.log)
        × (k.out.capacity ≡ 1) };
}

impl<O: Outside> LearningKernel<O> {
    ghost use Rattle.nv_run_tests.specs.Given.{given_by, IsTold};

    /// A kernel that has served nothing.
    pub fn make(alloc: Global, outside: O) -> Result<LearningKernel<O>, AllocError>
        requires { IsTold (O.told outside) [] }
        ensures { IfOk result (λ k. (k.log ≡ []) × (k.kept ≡ None)) }
    {
        let out = Bytes::make(alloc, 1)?;
        Ok(LearningKernel {
            alloc,
            outside,
            kept: None,
            log: Vec::new(alloc),
            out,
            spare: None,
            over: false,
            end: None,
        })
    }

    /// Who gives: each thing that it has given was handed in, in order, or is kept.
    pub fn outside(&self) -> &O
        ensures told { O.told result.now ≡ self.now.told }
        ensures all { IsTold self.now.told (given_by self.now.log self.now.kept) }
    {
        &self.outside
    }
}

// Whether no thread lives after the call.
fn exits(call: &Call) -> bool
    ensures { result ≡ ((call.now.nr == 93) || (call.now.nr == 94)) }
{
    call.nr == EXIT || call.nr == EXIT_GROUP
}

// What a call gets, and what stays kept.
fn answer(kept: &mut Option<Option<u8>>, call: &Call, out: &mut Bytes) -> i32
    requires ready { is_input (request call.now) ≡ true → is_some kept.old ≡ true }
    requires wide { out.old.capacity ≡ 1 }
    ensures answer { record { ret = result; payload = out.new.bytes } ≡ answered (thing_of kept.old) (request call.now) }
    ensures kept { kept.new ≡ left_of kept.old (request call.now) }
    ensures wide { out.new.capacity ≡ 1 }
{
    if !is_input(call) {
        out.set(&[]);
        return ENOSYS;
    }
    match kept.take() {
        Some(Some(byte)) => {
            out.set(&[byte]);
            1
        }
        _ => {
            out.set(&[]);
            0
        }
    }
}

impl<O: Outside> SyscallKernel for LearningKernel<O> {
    ghost use Rattle.nv_live.specs.Telling.{nothing_code};
    ghost use Rattle.nv_run_tests.specs.Given.{from_given, given_by};
    ghost use Rattle.nv_run_tests.specs.Learning.{CanServe};

    ghost log = { λ k. k.log };

    // It is made over nothing that differs from run to run.
    ghost Beginning = { Unit {0} };

    ghost beginning_code = { nothing_code };

    ghost start = { λ k. tt };

    ghost known = { λ k. from_given (given_by k.log k.kept) };

    // No operator's word comes.
    ghost handed = { λ _ lengths. lengths ≡ [] };

    ghost is_ready = { CanServe };

    fn reserve(&mut self, call: &Call) -> Result<(), AllocError> {
        self.spare = None;
        let event = blank(self.alloc, call)?;
        self.log.reserve(1)?;
        if wants(self.kept, call) {
            self.kept = Some(self.outside.next());
        }
        self.spare = Some(event);
        Ok(())
    }

    fn serve(&mut self, call: &Call) {
        let Some(mut event) = self.spare.take() else {
            unreachable!()
        };
        let stamp = self.log.as_slice().len() as u32;
        let ret = answer(&mut self.kept, call, &mut self.out);
        fill(&mut event, call, stamp, ret, &self.out);
        self.over = exits(call);
        self.end = next_end(self.over, call);
        keep(&mut self.log, event);
    }

    fn last(&self) -> &Event {
        let log = self.log.as_slice();
        &log[log.len() - 1]
    }

    fn ended(&self) -> Option<u8> {
        self.end
    }
}

impl<O: Outside> Recorded for LearningKernel<O> {
    fn history(&self) -> &[Event] {
        self.log.as_slice()
    }

    fn output(&self) -> &[u8] {
        &[]
    }
}
