// The assembler of rule texts.
ghost use Rattle.std.specs.Prelude.{◌≡◌, ◌≢◌, Ok, Err, ◌++◌, option_map, option_to_list, IfOk, IfErr, OnOk};
ghost use Rattle.nv_bytes.specs.Lines.{lines};
ghost use Rattle.nv_bytes.specs.Names.{defined};
ghost use Rattle.nv_bytes.specs.Parts.{parts_of};
ghost use Rattle.nv_bpf_asm.specs.Assembled.{is_twice, op_of_word, op_of_parts, ops_of, assembled};

use crate::fault::{RuleCause, RuleFault};
use crate::label::Label;
use crate::labels::{labels, line_parts, word_count};
use crate::statements::statement_of;
use crate::targets::op_of;
use nv_bpf::{Filter, MOST_OPS, Op, verify};
use nv_bytes::{Line, Lines, Names, line_number};
use std::alloc::{AllocError, Global};

// Whether the label is defined on an earlier line.
fn is_twice(names: &Names<Label>, line: usize, label: Option<&[u8]>) -> bool
    ensures { result ≡ is_twice (defined names.now) line (option_map (λ name. name.now) label.entry) }
{
    match label {
        None => false,
        Some(name) => match names.find(name) {
            None => false,
            Some(label) => label.line < line,
        },
    }
}

// The instruction of a word and the rest after it, if there is a word.
fn op_of_word(
    alloc: Global,
    names: &Names<Label>,
    place: usize,
    word: &[u8],
    rest: &[u8],
) -> Result<Result<Option<Op>, RuleCause>, AllocError>
    ensures { IfOk result (λ op. op ≡ op_of_word (defined names.now) place word.now rest.now) }
{
    if word.is_empty() {
        return Ok(Ok(None));
    }
    match statement_of(alloc, word, rest)? {
        Err(cause) => Ok(Err(cause)),
        Ok(statement) => match op_of(names, place, statement) {
            Err(cause) => Ok(Err(cause)),
            Ok(op) => Ok(Ok(Some(op))),
        },
    }
}

// The instruction of a line, or its first cause.
fn op_of_parts(
    alloc: Global,
    names: &Names<Label>,
    line: usize,
    place: usize,
    parts: Line<'_>,
) -> Result<Result<Option<Op>, RuleCause>, AllocError>
    ensures { IfOk result (λ op. op ≡ op_of_parts (defined names.now) line place (parts_of parts.entry)) }
{
    if is_twice(names, line, parts.label) {
        return Ok(Err(RuleCause::Twice));
    }
    let op = op_of_word(alloc, names, place, parts.word, parts.rest)?;
    Ok(op)
}

fn push_op(ops: &mut Vec<Op>, op: Option<Op>) -> Result<(), AllocError>
    ensures { OnOk result (ops.new.items ≡ ops.old.items ++ option_to_list op) }
{
    if let Some(op) = op {
        ops.push(op)?;
    }
    Ok(())
}

// The instructions of a text, or the first fault of its lines.
fn ops_of(alloc: Global, names: &Names<Label>, text: &[u8]) -> Result<Vec<Op>, RuleFault>
    ensures ops { IfOk result (λ ops. ops_of (defined names.now) 0 0 (lines text.now) ≡ Ok ops.items) }
    ensures fault { IfErr result (λ fault. fault ≢ RuleFault.Memory → ops_of (defined names.now) 0 0 (lines text.now) ≡ Err fault) }
{
    let mut ops = Vec::new(alloc);
    let mut place = 0usize;
    for (line, content) in Lines::of(text) {
        let parts = line_parts(content);
        let op = match op_of_parts(alloc, names, line, place, parts)? {
            Ok(op) => op,
            Err(cause) => return Err(RuleFault::Line(line_number(line), cause)),
        };
        push_op(&mut ops, op)?;
        place += word_count(parts.word);
    }
    Ok(ops)
}

/// Assembles a rule text.
pub fn assemble(alloc: Global, text: &[u8]) -> Result<Filter, RuleFault>
    // want of memory is the one free answer
    ensures { result ≢ Err RuleFault.Memory → result ≡ assembled MOST_OPS text.now }
{
    let names = labels(alloc, text)?;
    let ops = ops_of(alloc, &names, text)?;
    match verify(ops) {
        Ok(filter) => Ok(filter),
        Err(fault) => Err(RuleFault::Filter(fault)),
    }
}
