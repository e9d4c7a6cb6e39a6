// Filters and their verifier.
ghost use Rattle.std.specs.Prelude.{◌≡◌, ◌<◌, ◌+◌, ◌^◌, None, length, nat_lt, slice_get};
ghost use Rattle.nv_bpf.specs.Verified.{op_fault, action_fault, is_word, constant_fault, ops_fault, ends_in_return, list_fault, verified, is_return};
ghost use Rattle.nv_bpf.specs.Actions.{action_of};

use crate::{Action, Arithmetic, FilterFault, MOST_OPS, Op, Operand, decode};
use std::marker::Model;

/// A verified filter, as the list of its instructions.
#[derive(Drop)]
pub struct Filter {
    ops: Vec<Op>,
}

impl Model for Filter {
    ghost use Rattle.std.specs.Prelude.{List};
    ghost use Rattle.nv_bpf.specs.declared.op.Op.{Op};
    ghost use Rattle.nv_bpf.specs.Verified.{IsFilter};
    ghost use Rattle.nv_bpf.specs.declared.op.TheConstants.{MOST_OPS};

    ghost Value = { List Op };

    ghost view = { λ f. f.ops.items };

    ghost invariant = { λ f. IsFilter MOST_OPS f.ops.items };
}

impl Filter {
    /// How many instructions it has.
    #[inline(always)]
    pub fn len(&self) -> u32
        ensures count { result ≡ length self.now }
        ensures verified { list_fault MOST_OPS self.now ≡ None }
    {
        self.ops.len() as u32
    }

    /// The instruction at this place.
    #[inline(always)]
    pub fn at(&self, i: u32) -> Op
        requires { i < length self.now }
        ensures op { slice_get self.now i ≡ Some result }
        ensures sound { op_fault (length self.now) i result ≡ None }
    {
        self.ops[i as usize]
    }

    /// Its instructions.
    #[inline(always)]
    pub fn as_slice(&self) -> &[Op]
        ensures ops { result.now ≡ self.now }
        ensures verified { list_fault MOST_OPS self.now ≡ None }
    {
        self.ops.as_slice()
    }
}

// The fault of arithmetic with a constant.
fn constant_fault(arithmetic: Arithmetic, i: u32, k: u32) -> Option<FilterFault>
    ensures { result ≡ constant_fault arithmetic i k }
{
    match arithmetic {
        Arithmetic::Divide if k == 0 => Some(FilterFault::Zero(i)),
        Arithmetic::ShiftLeft | Arithmetic::ShiftRight if k > 31 => Some(FilterFault::Shift(i)),
        _ => None,
    }
}

// Whether going forward from the instruction after the one at this place stays among so many instructions.
fn is_within(count: usize, i: u32, forward: u32) -> bool
    ensures { result ≡ nat_lt (i + 1 + forward) count }
{
    u64::from(i) + 1 + u64::from(forward) < count as u64
}

// Whether a word that a filter reads begins there. At 132, the length of the calls and the version's number, none does.
fn is_word(k: u32) -> bool
    ensures { result ≡ is_word k }
{
    k % 4 == 0 && k <= 140 && k != 132
}

fn action_fault(action: Action, count: usize, i: u32, op: Op) -> Option<FilterFault>
    ensures { result ≡ action_fault action count i op }
{
    let fault = match action {
        Action::Jump if !is_within(count, i, op.k) => FilterFault::Jump(i),
        Action::Branch(_, _)
            if !is_within(count, i, u32::from(op.jt)) || !is_within(count, i, u32::from(op.jf)) => {
            FilterFault::Jump(i)
        }
        Action::LoadScratch(_) | Action::Store(_) if op.k > 15 => FilterFault::Scratch(i),
        Action::LoadWord if !is_word(op.k) => FilterFault::Offset(i),
        Action::Compute(arithmetic, Operand::Constant) => {
            return constant_fault(arithmetic, i, op.k);
        }
        _ => return None,
    };
    Some(fault)
}

#[tactic(auto, unfolding(crate::specs::Verified::op_fault))]
fn op_fault(count: usize, i: u32, op: Op) -> Option<FilterFault>
    ensures { result ≡ op_fault count i op }
{
    match decode(op.code) {
        None => Some(FilterFault::Code(i)),
        Some(action) => action_fault(action, count, i, op),
    }
}

fn is_return(op: Op) -> bool
    ensures { result ≡ is_return (action_of op.code) }
{
    matches!(
        decode(op.code),
        Some(Action::ReturnConstant | Action::ReturnAccumulator)
    )
}

fn ends_in_return(ops: &[Op]) -> bool
    ensures { result ≡ ends_in_return ops.now }
{
    match ops.last() {
        Some(op) => is_return(*op),
        None => false,
    }
}

// The first fault of an instruction.
fn ops_fault(ops: &[Op]) -> Option<FilterFault>
    requires { length ops.now < 2 ^ 32 }
    ensures { result ≡ ops_fault (length ops.now) 0 ops.now }
{
    for (i, op) in ops.iter().enumerate() {
        if let Some(fault) = op_fault(ops.len(), i as u32, *op) {
            return Some(fault);
        }
    }
    None
}

#[tactic(auto, unfolding(crate::specs::Verified::list_fault))]
fn list_fault(ops: &[Op]) -> Option<FilterFault>
    ensures { result ≡ list_fault MOST_OPS ops.now }
{
    if ops.is_empty() {
        return Some(FilterFault::Empty);
    }
    if ops.len() > MOST_OPS {
        return Some(FilterFault::TooLong);
    }
    match ops_fault(ops) {
        Some(fault) => Some(fault),
        None if ends_in_return(ops) => None,
        None => Some(FilterFault::NoReturn),
    }
}

/// The filter of these instructions, or their first fault.
pub fn verify(code: Vec<Op>) -> Result<Filter, FilterFault>
    ensures { result ≡ verified MOST_OPS code.items }
{
    match list_fault(&code) {
        Some(fault) => Err(fault),
        None => Ok(Filter { ops: code }),
    }
}
