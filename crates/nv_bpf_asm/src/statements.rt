// The statements of rule texts.
ghost use Rattle.std.specs.Prelude.{◌≡◌, ℕ, [], ◌∷◌, map, length, option_map, option_and_then, codes, IfOk};
ghost use Rattle.std.specs.Option.{option_or};
ghost use Rattle.nv_bpf_asm.specs.Statements.{after_prefix, closed, constant, between, of_event, plain, sum_of, return_of, load_of, load_index_of, jump_of, choice_of, branch_of, formed, statement};
ghost use Rattle.nv_bpf_asm.specs.inner.Views.{view, result_view};

use crate::fault::RuleCause;
use crate::forms::{Form, form_of};
use nv_bytes::{is, is_name, number, operands};
use std::alloc::{AllocError, Global};

// the value by which a call takes the event's answer
const TAKE: u32 = 0x0007_0000;

/// The instruction of a line, with the labels that it goes to.
#[derive(Clone, Copy)]
pub enum Statement<'a> {
    /// A code and its k.
    Plain(u16, u32),
    /// A jump to a label.
    Always(&'a [u8]),
    /// A comparison's code and k, and the labels to go to where it holds and where it doesn't.
    Choice(u16, u32, &'a [u8], &'a [u8]),
}

// The rest of a text after a prefix.
fn after_prefix<'a>(prefix: &[u8], text: &'a [u8]) -> Option<&'a [u8]>
    ensures { option_map (λ rest. rest.now) result ≡ after_prefix prefix.now text.now }
{
    if text.starts_with(prefix) {
        Some(&text[prefix.len()..])
    } else {
        None
    }
}

// What stands before a closing bracket.
fn closed(text: &[u8]) -> Option<&[u8]>
    ensures { option_map (λ inside. inside.now) result ≡ closed text.now }
{
    match text {
        [inside @ .., b']'] => Some(inside),
        _ => None,
    }
}

// The k of `#k`.
#[tactic(auto, unfolding(crate::specs::Statements::constant))]
fn constant(text: &[u8]) -> Option<u32>
    ensures { result ≡ constant text.now }
{
    number(after_prefix(b"#", text)?)
}

// The k between a prefix and a closing bracket.
#[tactic(auto, unfolding(crate::specs::Statements::between))]
fn between(prefix: &[u8], text: &[u8]) -> Option<u32>
    ensures { result ≡ between prefix.now text.now }
{
    number(closed(after_prefix(prefix, text)?)?)
}

fn of_event(k: u32) -> Option<u32>
    ensures { result ≡ of_event k }
{
    k.checked_add(64)
}

fn plain<'a>(code: u16, k: Option<u32>) -> Option<Statement<'a>>
    ensures { option_map view result ≡ plain code k }
{
    match k {
        Some(k) => Some(Statement::Plain(code, k)),
        None => None,
    }
}

#[tactic(auto, unfolding(crate::specs::Statements::sum_of))]
fn sum<'a>(by_constant: u16, by_index: u16, operand: &[u8]) -> Option<Statement<'a>>
    ensures { option_map view result ≡ sum_of by_constant by_index operand.now }
{
    if is(operand, "x") {
        return Some(Statement::Plain(by_index, 0));
    }
    plain(by_constant, constant(operand))
}

#[tactic(auto, unfolding(crate::specs::Statements::return_of))]
fn return_value<'a>(operand: &[u8]) -> Option<Statement<'a>>
    ensures { option_map view result ≡ return_of operand.now }
{
    if is(operand, "a") {
        return Some(Statement::Plain(0x16, 0));
    }
    if is(operand, "#take") {
        return Some(Statement::Plain(0x06, TAKE));
    }
    plain(0x06, constant(operand))
}

// A word of the pair.
fn pair_word(operand: &[u8]) -> Option<u32>
    ensures { result ≡ option_or (between (codes "[") operand.now) (option_and_then of_event (between (codes "event[") operand.now)) }
{
    match between(b"[", operand) {
        Some(offset) => Some(offset),
        None => of_event(between(b"event[", operand)?),
    }
}

#[tactic(auto, unfolding(crate::specs::Statements::load_of))]
fn load<'a>(operand: &[u8]) -> Option<Statement<'a>>
    ensures { option_map view result ≡ load_of operand.now }
{
    if is(operand, "len") {
        return Some(Statement::Plain(0x80, 0));
    }
    if is(operand, "version") {
        return Some(Statement::Plain(0x20, 128));
    }
    if is(operand, "bytes") {
        return Some(Statement::Plain(0x20, 136));
    }
    if is(operand, "event.bytes") {
        return Some(Statement::Plain(0x20, 140));
    }
    if let Some(k) = constant(operand) {
        return Some(Statement::Plain(0x00, k));
    }
    if let Some(k) = between(b"M[", operand) {
        return Some(Statement::Plain(0x60, k));
    }
    plain(0x20, pair_word(operand))
}

#[tactic(auto, unfolding(crate::specs::Statements::load_index_of))]
fn load_index<'a>(operand: &[u8]) -> Option<Statement<'a>>
    ensures { option_map view result ≡ load_index_of operand.now }
{
    if is(operand, "len") {
        return Some(Statement::Plain(0x81, 0));
    }
    if let Some(k) = constant(operand) {
        return Some(Statement::Plain(0x01, k));
    }
    plain(0x61, between(b"M[", operand))
}

#[tactic(auto, unfolding(crate::specs::Statements::jump_of))]
fn jump(target: &[u8]) -> Option<Statement<'_>>
    ensures { option_map view result ≡ jump_of target.now }
{
    if is_name(target) {
        Some(Statement::Always(target))
    } else {
        None
    }
}

#[tactic(auto, unfolding(crate::specs::Statements::branch_of))]
fn branch<'a>(
    by_constant: u16,
    by_index: u16,
    value: &[u8],
    holds: &'a [u8],
    fails: &'a [u8],
) -> Option<Statement<'a>>
    ensures { option_map view result ≡ branch_of by_constant by_index value.now holds.now fails.now }
{
    if !is_name(holds) || !is_name(fails) {
        return None;
    }
    if is(value, "x") {
        return Some(Statement::Choice(by_index, 0, holds, fails));
    }
    match constant(value) {
        Some(k) => Some(Statement::Choice(by_constant, k, holds, fails)),
        None => None,
    }
}

// The statement of one operand.
fn of_one(form: Form, operand: &[u8]) -> Option<Statement<'_>>
    ensures { option_map view result ≡ formed form (operand.now ∷ []) }
{
    match form {
        Form::Sum(by_constant, by_index) => sum(by_constant, by_index, operand),
        Form::Scratch(code) => plain(code, between(b"M[", operand)),
        Form::Return => return_value(operand),
        Form::Jump => jump(operand),
        Form::Load => load(operand),
        Form::LoadIndex => load_index(operand),
        Form::Alone(_) | Form::Branch(_, _) => None,
    }
}

// The statement of these operands, where they are of the form.
fn formed<'a>(form: Form, operands: &[&'a [u8]]) -> Option<Statement<'a>>
    ensures { option_map view result ≡ formed form (map (λ operand. operand.now) operands.now) }
{
    match operands {
        [] => match form {
            Form::Alone(code) => Some(Statement::Plain(code, 0)),
            _ => None,
        },
        [operand] => of_one(form, operand),
        [value, holds, fails] => match form {
            Form::Branch(by_constant, by_index) => branch(
                by_constant,
                by_index,
                value,
                holds,
                fails,
            ),
            _ => None,
        },
        _ => None,
    }
}

/// The statement of a word and the rest after it.
#[tactic(auto, unfolding(crate::specs::Statements::statement))]
pub fn statement_of<'a>(
    alloc: Global,
    word: &[u8],
    rest: &'a [u8],
) -> Result<Result<Statement<'a>, RuleCause>, AllocError>
    ensures { IfOk result (λ stated. result_view stated ≡ statement word.now rest.now) }
{
    let Some(form) = form_of(word) else {
        return Ok(Err(RuleCause::Word));
    };
    let operands = operands(alloc, rest)?;
    Ok(formed(form, &operands).ok_or(RuleCause::Operand))
}
