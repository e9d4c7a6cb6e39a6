// The instructions of statements, with the ways to their targets.
ghost use Rattle.std.specs.Prelude.{◌≡◌};
ghost use Rattle.nv_bytes.specs.Names.{defined};
ghost use Rattle.nv_bpf_asm.specs.Assembled.{way, near_way, jump_op, branch_by, branch_op, op_of};
ghost use Rattle.nv_bpf_asm.specs.inner.Views.{view};

use crate::fault::RuleCause;
use crate::label::Label;
use crate::statements::Statement;
use nv_bpf::Op;
use nv_bytes::Names;

// How many instructions lie between a jump and its target, where that is after the jump.
fn way(place: usize, target: Label) -> Option<u32>
    ensures { result ≡ way place target }
{
    if place < target.place {
        Some(u32::try_from(target.place - place - 1).unwrap_or(u32::MAX))
    } else {
        None
    }
}

fn near_way(place: usize, target: Label) -> Option<u8>
    ensures { result ≡ near_way place target }
{
    if place < target.place {
        u8::try_from(target.place - place - 1).ok()
    } else {
        None
    }
}

fn jump_op(place: usize, target: Option<Label>) -> Result<Op, RuleCause>
    ensures { result ≡ jump_op place target }
{
    match target {
        None => Err(RuleCause::Label),
        Some(target) => match way(place, target) {
            None => Err(RuleCause::Far),
            Some(k) => Ok(Op {
                code: 0x05,
                jt: 0,
                jf: 0,
                k,
            }),
        },
    }
}

fn branch_by(code: u16, k: u32, jt: Option<u8>, jf: Option<u8>) -> Result<Op, RuleCause>
    ensures { result ≡ branch_by code k jt jf }
{
    match (jt, jf) {
        (Some(jt), Some(jf)) => Ok(Op { code, jt, jf, k }),
        _ => Err(RuleCause::Far),
    }
}

fn branch_op(
    place: usize,
    code: u16,
    k: u32,
    holds: Option<Label>,
    fails: Option<Label>,
) -> Result<Op, RuleCause>
    ensures { result ≡ branch_op place code k holds fails }
{
    match (holds, fails) {
        (Some(holds), Some(fails)) => branch_by(
            code,
            k,
            near_way(place, holds),
            near_way(place, fails),
        ),
        _ => Err(RuleCause::Label),
    }
}

/// The instruction of a statement at a place, or why it is none.
#[tactic(auto, unfolding(crate::specs::Assembled::op_of))]
pub fn op_of(names: &Names<Label>, place: usize, statement: Statement) -> Result<Op, RuleCause>
    ensures { result ≡ op_of (defined names.now) place (view statement.entry) }
{
    match statement {
        Statement::Plain(code, k) => Ok(Op {
            code,
            jt: 0,
            jf: 0,
            k,
        }),
        Statement::Always(target) => jump_op(place, names.find(target)),
        Statement::Choice(code, k, holds, fails) => {
            branch_op(place, code, k, names.find(holds), names.find(fails))
        }
    }
}
