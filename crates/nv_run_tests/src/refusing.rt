// A kernel over another one, with the reservations that are refused.
ghost use Rattle.std.specs.Prelude.{◌≡◌, ℕ, List, IsTrue, IsErr, OnOk};
ghost use Rattle.nv_calls.specs.Calls.{request};
ghost use Rattle.nv_calls.specs.Learning.{GoesOn};
ghost use Rattle.nv_calls.specs.Shapes.{IsShaped};
ghost use Rattle.nv_run_tests.specs.Refusing.{is_refused};

use nv_calls::{Call, Event, Recorded, SyscallKernel};
use std::alloc::AllocError;

/// A kernel that has no memory for some of the calls: those whose reservation has one of the numbers, counted from 0.
#[derive(Drop)]
pub struct RefusingKernel<K: SyscallKernel> {
    inner: K,
    refused: Vec<u32>,
    asked: u64,
}

fn is_among(numbers: &[u32], asked: u64) -> bool
    ensures { result ≡ is_refused numbers.now asked }
{
    numbers.iter().any(|number| u64::from(*number) == asked)
}

impl<K: SyscallKernel> RefusingKernel<K> {
    ghost use Rattle.nv_run_tests.specs.Refusing.{inner_of, refused_of, asked_of};

    /// A kernel that goes on as this one, but for the reservations with these numbers.
    pub fn make(inner: K, refused: Vec<u32>) -> RefusingKernel<K>
        ensures inner { inner_of result ≡ inner }
        ensures refused { refused_of result ≡ refused.items }
        ensures asked { asked_of result ≡ 0 }
    {
        RefusingKernel {
            inner,
            refused,
            asked: 0,
        }
    }

    /// The kernel below.
    pub fn inner(&self) -> &K
        ensures { result.now ≡ inner_of self.now }
    {
        &self.inner
    }

    /// How many reservations were asked for, those that were refused too.
    pub fn asked(&self) -> u64
        ensures { result ≡ asked_of self.now }
    {
        self.asked
    }
}

impl<K: SyscallKernel> SyscallKernel for RefusingKernel<K> {
    ghost use Rattle.nv_run_tests.specs.Refusing.{inner_of, refused_of, asked_of, one_more};

    ghost log = { λ k. K.log k.inner };

    ghost Beginning = { K.Beginning };

    ghost beginning_code = { K.beginning_code };

    ghost start = { λ k. K.start k.inner };

    ghost known = { λ k. K.known k.inner };

    ghost handed = { λ k. K.handed k.inner };

    ghost is_ready = { λ k. K.is_ready k.inner };

    fn reserve(&mut self, call: &Call) -> Result<(), AllocError>
        requires shaped { IsShaped (request call.now) }
        ensures log { K.log (inner_of self.new) ≡ K.log (inner_of self.old) }
        ensures start { K.start (inner_of self.new) ≡ K.start (inner_of self.old) }
        ensures known { GoesOn (K.log (inner_of self.old)) (K.known (inner_of self.old)) (K.known (inner_of self.new)) }
        ensures handed { (lengths : List ℕ) → K.handed (inner_of self.old) lengths → K.handed (inner_of self.new) lengths }
        ensures ready { OnOk result (K.is_ready (inner_of self.new) (request call.now)) }
        ensures refused { IsTrue (is_refused (refused_of self.old) (asked_of self.old)) → IsErr result }
        ensures numbers { refused_of self.new ≡ refused_of self.old }
        ensures asked { asked_of self.new ≡ one_more (asked_of self.old) }
    {
        let asked = self.asked;
        self.asked = asked.saturating_add(1);
        if is_among(&self.refused, asked) {
            return Err(AllocError);
        }
        self.inner.reserve(call)
    }

    fn serve(&mut self, call: &Call) {
        self.inner.serve(call);
    }

    fn last(&self) -> &Event {
        self.inner.last()
    }

    fn ended(&self) -> Option<u8> {
        self.inner.ended()
    }
}

impl<K: SyscallKernel + Recorded> Recorded for RefusingKernel<K> {
    fn history(&self) -> &[Event] {
        self.inner.history()
    }

    fn output(&self) -> &[u8] {
        self.inner.output()
    }
}
