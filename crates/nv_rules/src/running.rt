// The value of a filter.
ghost use Rattle.std.specs.Prelude.{◌≡◌, ◌≤◌, Some, drop, length};
ghost use Rattle.nv_rules.specs.Values.{returned, value_of};

use crate::Pair;
use crate::machine::{Registers, Step};
use nv_bpf::{Filter, Op};

// What stands after so many instructions.
#[inline(always)]
fn after(ops: &[Op], count: usize) -> &[Op]
    requires { count ≤ length ops.now }
    ensures { result.now ≡ drop count ops.now }
{
    &ops[count..]
}

/// The value of a filter on a pair. It takes no memory.
pub fn value(filter: &Filter, pair: &Pair) -> u32
    ensures returned { returned filter.now pair.now.words ≡ Some result }
    ensures value { result ≡ value_of filter.now pair.now.words }
{
    let mut registers = Registers::new();
    let mut scratch = [0; 16];
    let mut rest = filter.as_slice();
    loop {
        match registers.step(&mut scratch, &rest[0], pair) {
            Step::Return(value) => return value,
            Step::Next => rest = after(rest, 1),
            Step::Forward(skipped) => rest = after(rest, 1 + skipped as usize),
        }
    }
}
