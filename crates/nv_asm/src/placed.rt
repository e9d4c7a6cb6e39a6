// Where each line's statement stands.
ghost use Rattle.std.specs.Prelude.{◌≡◌, ◌≤◌, ◌<◌, ◌+◌, ◌*◌, ◌^◌, length, IfOk};
ghost use Rattle.nv_bytes.specs.Parts.{parts_of};
ghost use Rattle.nv_asm.specs.Statements.{statement};
ghost use Rattle.nv_asm.specs.Places.{here, filled, among_data, in_section, size, code_size, begin, past, stated, or_blank, place, after, line_parts, placed_parts, placed_line};
ghost use Rattle.nv_asm.specs.inner.Bounds.{most_of};
ghost use Rattle.nv_asm.specs.inner.Views.{view, code_view, result_view};
ghost use Rattle.nv_asm.specs.inner.Lines.{placed_view, IsSmall};

use crate::code::{Code, Insns, Statement};
use crate::fault::AsmCause;
use crate::place::{Place, Reached, Section};
use crate::statements::statement_of;
use crate::strings::comment_place;
use nv_bytes::{Line, line_of};
use std::alloc::{AllocError, Global};

/// A line with its statement, or why it has none.
#[derive(Drop)]
pub struct Placed<'a> {
    /// How many lines are before it.
    pub line: usize,
    pub label: Option<&'a [u8]>,
    pub read: Result<Statement<'a>, AsmCause>,
    /// How far the text had come before it.
    pub before: Reached,
}

fn here(reached: Reached) -> u128
    ensures { result ≡ here reached }
{
    match reached.section {
        Section::Text => reached.text_len,
        Section::Data => reached.data_len,
    }
}

fn filled(section: Section, len: u128, reached: Reached) -> Reached
    ensures { result ≡ filled section len reached }
{
    match section {
        Section::Text => Reached {
            section: reached.section,
            text_len: len,
            data_len: reached.data_len,
        },
        Section::Data => Reached {
            section: reached.section,
            text_len: reached.text_len,
            data_len: len,
        },
    }
}

fn among_data(statement: Statement<'_>) -> Result<Statement<'_>, AsmCause>
    ensures value { result_view result ≡ among_data (view statement.entry) }
    ensures small { size (or_blank (result_view result)) ≤ size (view statement.entry) }
{
    match statement {
        Statement::Instruction(_) | Statement::OffInstruction => Err(AsmCause::Operand),
        statement => Ok(statement),
    }
}

// An instruction stands in the text section alone.
fn in_section<'a>(
    section: Section,
    read: Result<Statement<'a>, AsmCause>,
) -> Result<Statement<'a>, AsmCause>
    ensures value { result_view result ≡ in_section section (result_view read.entry) }
    ensures small { size (or_blank (result_view result)) ≤ size (or_blank (result_view read.entry)) }
{
    match (section, read) {
        (Section::Data, Ok(statement)) => among_data(statement),
        (_, read) => read,
    }
}

fn code_size(code: Code<'_>) -> u128
    ensures value { result ≡ code_size (code_view code.entry) }
    ensures small { result ≤ 8 }
{
    match code {
        Code::Fixed(Insns::One(_)) | Code::Branch(_) | Code::Jump(_, _) => 4,
        Code::Fixed(Insns::Two(_, _)) | Code::Load(_, _) => 8,
    }
}

fn size(statement: &Statement<'_>) -> u128
    ensures value { result ≡ size (view statement.now) }
    ensures small { result < 2 ^ 66 }
{
    match statement {
        Statement::Bytes(bytes) => bytes.len() as u128,
        Statement::Zero(count) => u128::from(*count),
        Statement::Words(operands) => 4 * operands.len() as u128,
        Statement::Instruction(code) => code_size(*code),
        _ => 0,
    }
}

// Where a statement begins in a section of so many bytes.
fn begin(statement: &Statement<'_>, len: u128) -> u128
    requires { len < 2 ^ 127 }
    ensures value { result ≡ begin (view statement.now) len }
    ensures near { (len ≤ result) × (result < len + 4) }
{
    match statement {
        Statement::Words(_) | Statement::Instruction(_) => len + (4 - len % 4) % 4,
        _ => len,
    }
}

fn past(statement: &Statement<'_>, reached: Reached) -> Reached
    requires { IsSmall reached }
    ensures value { result ≡ past (view statement.now) reached }
    ensures near { result.text_len + result.data_len < reached.text_len + reached.data_len + 2 ^ 67 }
{
    match statement {
        Statement::Text => Reached {
            section: Section::Text,
            text_len: reached.text_len,
            data_len: reached.data_len,
        },
        Statement::Data => Reached {
            section: Section::Data,
            text_len: reached.text_len,
            data_len: reached.data_len,
        },
        _ => filled(
            reached.section,
            begin(statement, here(reached)) + size(statement),
            reached,
        ),
    }
}

impl<'a> Placed<'a> {
    /// How many bytes the section has before the line.
    pub fn here(&self) -> u128
        ensures { result ≡ here self.now.before }
    {
        here(self.before)
    }

    /// Where the statement begins.
    pub fn place(&self) -> Place
        requires { IsSmall self.now.before }
        ensures value { result ≡ place (placed_view self.now) }
        ensures near { (here self.now.before ≤ result.offset) × (result.offset < here self.now.before + 4) }
    {
        let reached = self.before;
        let offset = match &self.read {
            Ok(statement) => begin(statement, here(reached)),
            Err(_) => here(reached),
        };
        Place {
            section: reached.section,
            offset,
        }
    }

    /// How far the text has come after the line.
    pub fn after(&self) -> Reached
        requires { IsSmall self.now.before }
        ensures value { result ≡ after (placed_view self.now) }
        ensures near { result.text_len + result.data_len < self.now.before.text_len + self.now.before.data_len + 2 ^ 67 }
    {
        match &self.read {
            Ok(statement) => past(statement, self.before),
            Err(_) => self.before,
        }
    }
}

#[tactic(auto, unfolding(crate::specs::Places::line_parts))]
fn line_parts(line: &[u8]) -> Line<'_>
    ensures { parts_of result ≡ line_parts line.now }
{
    line_of(&line[..comment_place(line)])
}

/// The line that so many are before, with its statement.
#[tactic(auto, unfolding(crate::specs::Places::placed_line))]
pub fn placed_line<'a>(
    alloc: Global,
    line: usize,
    before: Reached,
    text: &'a [u8],
) -> Result<Placed<'a>, AllocError>
    ensures value { IfOk result (λ placed. placed_view placed ≡ placed_line line before text.now) }
    ensures small { IfOk result (λ placed. size (stated (placed_view placed)) ≤ most_of (length text.now)) }
{
    let parts = line_parts(text);
    let read = in_section(before.section, statement_of(alloc, parts.word, parts.rest)?);
    Ok(Placed {
        line,
        label: parts.label,
        read,
        before,
    })
}
