// The writer of filters.
ghost use Rattle.std.specs.Prelude.{◌≡◌, ◌++◌, Ok, IfOk, OnOk, length};
ghost use Rattle.nv_bpf.specs.Texts.{ended_number, op_text, ops_text, filter_of, FitsFields};

use crate::{Filter, MOST_OPS, Op};
use nv_bytes::decimal;
use std::alloc::{AllocError, Global};

// Writes a number with the byte that ends it.
fn put_number(out: &mut Vec<u8>, value: u32, end: u8) -> Result<(), AllocError>
    ensures { OnOk result (out.new.items ≡ out.old.items ++ ended_number value end) }
{
    let mut digits = [0; 20];
    let count = decimal(u64::from(value), &mut digits);
    out.extend_from_slice(&digits[..count])?;
    out.push(end)?;
    Ok(())
}

fn put_op(out: &mut Vec<u8>, op: Op) -> Result<(), AllocError>
    ensures text { OnOk result (out.new.items ≡ out.old.items ++ op_text op) }
    ensures fits { FitsFields op }
{
    put_number(out, u32::from(op.code), b' ')?;
    put_number(out, u32::from(op.jt), b' ')?;
    put_number(out, u32::from(op.jf), b' ')?;
    put_number(out, op.k, b'\n')?;
    Ok(())
}

/// Writes the text of a filter, as `tcpdump -ddd` prints it.
pub fn write(alloc: Global, filter: &Filter) -> Result<Vec<u8>, AllocError>
    ensures text { IfOk result (λ text. text.items ≡ ops_text filter.now) }
    ensures read_back { IfOk result (λ text. filter_of MOST_OPS text.items ≡ Ok filter.now) }
{
    let mut text = Vec::new(alloc);
    let count = filter.len();
    put_number(&mut text, count, b'\n')?;
    for place in 0..count {
        put_op(&mut text, filter.at(place))?;
    }
    Ok(text)
}
