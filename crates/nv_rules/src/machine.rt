// The machine of filters.
ghost use Rattle.std.specs.Prelude.{◌≡◌, ℕ, List, Some, replicate, if◌then◌else◌};
ghost use Rattle.nv_rules.specs.Values.{Goes, filter_start, calculated, goes_with, ends_without, comparison_holds, acted, stepped};
ghost use Rattle.nv_rules.specs.inner.Machine.{state_of, effect_of, IsUsable, IsSoundOp};

use crate::Pair;
use nv_bpf::{Action, Arithmetic, Comparison, Op, Operand, Register, decode};

/// What a filter is told as the length: the bytes of the calls and the version's number, without the words after them.
const LENGTH: u32 = 132;

/// The registers. The scratch memory stands apart, so that the compiler keeps them out of memory.
#[derive(Clone, Copy)]
pub struct Registers {
    accumulator: u32,
    index: u32,
}

/// How an instruction ended.
#[derive(Clone, Copy)]
pub enum Step {
    /// The filter's value.
    Return(u32),
    /// The next instruction follows.
    Next,
    /// How many of the instructions that follow are passed over.
    Forward(u32),
}

// Arithmetic on words of 32 bits; a division by 0 has no result.
#[inline(always)]
fn compute(arithmetic: Arithmetic, a: u32, b: u32) -> Option<u32>
    ensures { result ≡ calculated arithmetic a b }
{
    match arithmetic {
        Arithmetic::Add => Some(a.wrapping_add(b)),
        Arithmetic::Subtract => Some(a.wrapping_sub(b)),
        Arithmetic::Multiply => Some(a.wrapping_mul(b)),
        Arithmetic::Divide if b == 0 => None,
        Arithmetic::Divide => Some(a / b),
        Arithmetic::Or => Some(a | b),
        Arithmetic::And => Some(a & b),
        Arithmetic::ShiftLeft => Some(a.wrapping_shl(b)),
        Arithmetic::ShiftRight => Some(a.wrapping_shr(b)),
    }
}

#[inline(always)]
fn comparison_holds(comparison: Comparison, a: u32, b: u32) -> bool
    ensures { result ≡ comparison_holds comparison a b }
{
    match comparison {
        Comparison::Equal => a == b,
        Comparison::Greater => a > b,
        Comparison::AtLeast => a >= b,
        Comparison::CommonBit => a & b != 0,
    }
}

impl Registers {
    #[tactic(auto, unfolding(crate::specs::Values::filter_start))]
    pub fn new() -> Self
        ensures { state_of result (replicate 16 0) ≡ filter_start }
    {
        Registers {
            accumulator: 0,
            index: 0,
        }
    }

    // The register becomes this, and the next instruction follows.
    #[inline(always)]
    fn load(&mut self, register: Register, value: u32) -> Step
        ensures { (scratch : List ℕ) → effect_of result self.new scratch ≡ goes_with register value (state_of self.old scratch) }
    {
        match register {
            Register::Accumulator => self.accumulator = value,
            Register::Index => self.index = value,
        }
        Step::Next
    }

    // The accumulator becomes the result with this second operand, if there is one.
    #[inline(always)]
    fn compute(&mut self, arithmetic: Arithmetic, b: u32) -> Step
        ensures { (scratch : List ℕ) → effect_of result self.new scratch ≡ ends_without (calculated arithmetic self.old.accumulator b) (state_of self.old scratch) }
    {
        match compute(arithmetic, self.accumulator, b) {
            Some(value) => self.load(Register::Accumulator, value),
            None => Step::Return(0),
        }
    }

    // Where to go on by a comparison with this second operand.
    #[inline(always)]
    fn branch(&self, comparison: Comparison, b: u32, op: &Op) -> Step
        ensures { (scratch : List ℕ) → effect_of result self.now scratch ≡ Goes (if comparison_holds comparison self.now.accumulator b then op.now.jt else op.now.jf) (state_of self.now scratch) }
    {
        let taken = comparison_holds(comparison, self.accumulator, b);
        Step::Forward(u32::from(if taken { op.jt } else { op.jf }))
    }

    #[inline(always)]
    fn act(&mut self, scratch: &mut [u32; 16], action: Action, op: &Op, pair: &Pair) -> Step
        requires { IsUsable action op.now.k }
        ensures { effect_of result self.new scratch.new ≡ acted action op.now pair.now.words (state_of self.old scratch.old) }
    {
        match action {
            Action::LoadWord => self.load(Register::Accumulator, pair.words[(op.k / 4) as usize]),
            Action::Load(register) => self.load(register, op.k),
            Action::LoadScratch(register) => self.load(register, scratch[op.k as usize]),
            Action::LoadLength(register) => self.load(register, LENGTH),
            Action::Store(Register::Accumulator) => {
                scratch[op.k as usize] = self.accumulator;
                Step::Next
            }
            Action::Store(Register::Index) => {
                scratch[op.k as usize] = self.index;
                Step::Next
            }
            Action::Compute(arithmetic, Operand::Constant) => self.compute(arithmetic, op.k),
            Action::Compute(arithmetic, Operand::Index) => self.compute(arithmetic, self.index),
            Action::Negate => self.load(Register::Accumulator, 0u32.wrapping_sub(self.accumulator)),
            Action::Jump => Step::Forward(op.k),
            Action::Branch(comparison, Operand::Constant) => self.branch(comparison, op.k, op),
            Action::Branch(comparison, Operand::Index) => self.branch(comparison, self.index, op),
            Action::ReturnConstant => Step::Return(op.k),
            Action::ReturnAccumulator => Step::Return(self.accumulator),
            Action::Copy(Register::Accumulator) => self.load(Register::Accumulator, self.index),
            Action::Copy(Register::Index) => self.load(Register::Index, self.accumulator),
        }
    }

    /// Carries out an instruction of a filter.
    #[inline(always)]
    pub fn step(&mut self, scratch: &mut [u32; 16], op: &Op, pair: &Pair) -> Step
        requires { IsSoundOp op.now }
        ensures { stepped op.now pair.now.words (state_of self.old scratch.old) ≡ Some (effect_of result self.new scratch.new) }
    {
        match decode(op.code) {
            Some(action) => self.act(scratch, action, op, pair),
            // not met: each instruction of a filter has an action
            None => Step::Return(0),
        }
    }
}
