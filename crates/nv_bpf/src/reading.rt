// The reader of filters.
ghost use Rattle.std.specs.Prelude.{◌≡◌, ◌≢◌, ◌<◌, ◌≤◌, ◌^◌, Ok, Err, [], ◌∷◌, length, IfOk, IfErr, IfSome};
ghost use Rattle.nv_bpf.specs.Texts.{field, op_of_fields, op_of, ops_of, ops_of_text, filter_of, line_count};
ghost use Rattle.nv_bytes.specs.Lines.{lines};
ghost use Rattle.nv_bytes.specs.Numbers.{number_of};

use crate::{Filter, FilterFault, MOST_OPS, Op, verify};
use nv_bytes::{Lines, line_number, number, split_field};
use std::alloc::Global;

// A number that is at most this.
#[tactic(auto, unfolding(crate::specs::Texts::field))]
fn field(text: &[u8], most: u32) -> Option<u32>
    ensures value { result ≡ field most text.now }
    ensures within { IfSome result (λ n. n ≤ most) }
{
    match number(text) {
        Some(n) if n <= most => Some(n),
        _ => None,
    }
}

fn op_of_texts(code: &[u8], jt: &[u8], jf: &[u8], k: &[u8]) -> Option<Op>
    ensures { result ≡ op_of_fields (code.now ∷ jt.now ∷ jf.now ∷ k.now ∷ []) }
{
    let code = field(code, 65535)? as u16;
    let jt = field(jt, 255)? as u8;
    let jf = field(jf, 255)? as u8;
    let k = number(k)?;
    Some(Op { code, jt, jf, k })
}

fn read_op(line: &[u8]) -> Option<Op>
    ensures { result ≡ op_of line.now }
{
    let (code, rest) = split_field(line);
    let (jt, rest) = split_field(rest?);
    let (jf, rest) = split_field(rest?);
    let (k, rest) = split_field(rest?);
    match rest {
        Some(_) => None,
        None => op_of_texts(code, jt, jf, k),
    }
}

fn read_count(line: &[u8]) -> Result<u32, FilterFault>
    ensures { result ≡ line_count MOST_OPS (number_of line.now) }
{
    match number(line) {
        None => Err(FilterFault::Line(1)),
        Some(0) => Err(FilterFault::Empty),
        Some(count) if count as usize > MOST_OPS => Err(FilterFault::TooLong),
        Some(count) => Ok(count),
    }
}

// So many instructions, one a line, from line 2 on.
fn read_ops(alloc: Global, count: u32, mut lines: Lines<'_>) -> Result<Vec<Op>, FilterFault>
    requires few { count < 2 ^ 31 }
    requires second { lines.before ≡ 1 }
    ensures ops { IfOk result (λ ops. ops_of 2 count lines.entry.left ≡ Ok ops.items) }
    ensures fault { IfErr result (λ fault. fault ≢ FilterFault.Memory → ops_of 2 count lines.entry.left ≡ Err fault) }
{
    let mut ops = Vec::new(alloc);
    for _ in 0..count {
        let Some((before, line)) = lines.next() else {
            return Err(FilterFault::Count);
        };
        let Some(op) = read_op(line) else {
            return Err(FilterFault::Line(line_number(before)));
        };
        ops.push(op)?;
    }
    match lines.next() {
        None => Ok(ops),
        Some(_) => Err(FilterFault::Count),
    }
}

fn read_text(alloc: Global, text: &[u8]) -> Result<Vec<Op>, FilterFault>
    ensures ops { IfOk result (λ ops. ops_of_text MOST_OPS text.now ≡ Ok ops.items) }
    ensures fault { IfErr result (λ fault. fault ≢ FilterFault.Memory → ops_of_text MOST_OPS text.now ≡ Err fault) }
{
    let mut lines = Lines::of(text);
    let Some((_, first)) = lines.next() else {
        return Err(FilterFault::Line(1));
    };
    let count = read_count(first)?;
    let ops = read_ops(alloc, count, lines)?;
    Ok(ops)
}

/// Reads the text of a filter, as `tcpdump -ddd` prints it.
pub fn read(alloc: Global, text: &[u8]) -> Result<Filter, FilterFault>
    // want of memory is the one free answer
    ensures { result ≢ Err FilterFault.Memory → result ≡ filter_of MOST_OPS text.now }
{
    let ops = read_text(alloc, text)?;
    verify(ops)
}
