// The bytes of lines, or why they are faulty.
ghost use Rattle.std.specs.Prelude.{◌≡◌, ◌≤◌, ◌<◌, ◌+◌, ◌-◌, ℤ, pos, neg_ℤ, ◌≤ℤ◌, IfSome, ◌++◌, ◌^◌, ℕ, IsTrue, Ok, map, replicate, option_map, IfOk, OnOk, length};
ghost use Rattle.std.specs.List.{list_any};
ghost use Rattle.std.specs.Int.{w32, to_le_bytes};
ghost use Rattle.nv_bytes.specs.Names.{defined};
ghost use Rattle.nv_isa.specs.declared.op.Op.TheVariants as op;
ghost use Rattle.nv_isa.specs.Spelling.{encoded, low_bits};
ghost use Rattle.nv_asm.specs.Statements.{insn, word_of};
ghost use Rattle.nv_asm.specs.inner.Views.{view, code_view, word_view, words_view, operand_texts};
ghost use Rattle.nv_asm.specs.Places.{stated};
ghost use Rattle.nv_asm.specs.inner.Lines.{placed_view, laid_view, IsSmall};
ghost use Rattle.nv_asm.specs.Assembled.{data_base, address, address_of, is_undefined, is_entry, is_entry_place, word_lacks, code_lacks, lacks, distance, word_value, code_words, le_words, content, is_twice, is_long, padding_before, laid_by, laid, entry_past};
ghost use Rattle.nv_asm.specs.inner.Known.{known, IsWithin};

use crate::code::{Branch, Code, Insns, Statement, Word};
use crate::fault::AsmCause;
use crate::numbers::Register;
use crate::place::{Label, Place, Reached, Section};
use crate::placed::Placed;
use crate::statements::{loading, word_of};
use nv_bytes::Names;
use nv_isa::{Insn, Op, encode};
use std::alloc::{AllocError, Global};

/// Where the text section begins.
pub const TEXT_BASE: u32 = 0x1_0000;

/// How many bytes both sections may have together.
pub const MOST_BYTES: u128 = 1_048_576;

// How many bytes a page of memory has.
const PAGE: u128 = 4096;

/// Where the data section begins: at a page.
pub fn data_base(text_len: u128) -> u128
    requires { text_len < 2 ^ 120 }
    ensures { result ≡ data_base text_len }
{
    (u128::from(TEXT_BASE) + text_len).next_multiple_of(PAGE)
}

#[tactic(auto, unfolding(crate::specs::Assembled::address))]
fn address(text_len: u128, place: Place) -> u128
    requires text { text_len < 2 ^ 120 }
    requires offset { place.offset < 2 ^ 121 }
    ensures value { result ≡ address text_len place }
    ensures small { result < 2 ^ 122 }
{
    match place.section {
        Section::Text => u128::from(TEXT_BASE) + place.offset,
        Section::Data => data_base(text_len) + place.offset,
    }
}

// The address of a label that is defined.
#[tactic(auto, unfolding(crate::specs::Assembled::address_of))]
fn address_of(names: &Names<Label>, text_len: u128, name: &[u8]) -> u128
    requires { IsWithin names.now text_len }
    ensures value { result ≡ address_of (known names.now text_len) name.now }
    ensures small { result < 2 ^ 122 }
{
    match names.find(name) {
        None => 0,
        Some(label) => address(text_len, label.place),
    }
}

fn is_undefined(names: &Names<Label>, text_len: u128, name: &[u8]) -> bool
    ensures { result ≡ is_undefined (known names.now text_len) name.now }
{
    names.find(name).is_none()
}

fn is_entry_place(text_len: u128, place: Place) -> bool
    requires { place.offset < 2 ^ 121 }
    ensures { result ≡ is_entry_place text_len place }
{
    match place.section {
        Section::Text => place.offset % 4 == 0 && place.offset + 4 <= text_len,
        Section::Data => false,
    }
}

fn is_entry(names: &Names<Label>, text_len: u128, name: &[u8]) -> bool
    requires { IsWithin names.now text_len }
    ensures { result ≡ is_entry text_len (defined names.now name.now) }
{
    match names.find(name) {
        None => false,
        Some(label) => is_entry_place(text_len, label.place),
    }
}

fn word_lacks(names: &Names<Label>, text_len: u128, word: Word<'_>) -> bool
    ensures { result ≡ word_lacks (known names.now text_len) (word_view word.entry) }
{
    match word {
        Word::Value(_) => false,
        Word::Address(name) => is_undefined(names, text_len, name),
    }
}

fn some_word_lacks(names: &Names<Label>, text_len: u128, operands: &[&[u8]]) -> bool
    ensures { result ≡ list_any (word_lacks (known names.now text_len)) (map word_of (operand_texts operands.now)) }
{
    for operand in operands {
        if word_lacks(names, text_len, word_of(operand)) {
            return true;
        }
    }
    false
}

fn code_lacks(names: &Names<Label>, text_len: u128, code: Code<'_>) -> bool
    ensures { result ≡ code_lacks (known names.now text_len) (code_view code.entry) }
{
    match code {
        Code::Fixed(_) => false,
        Code::Branch(branch) => is_undefined(names, text_len, branch.target),
        Code::Jump(_, target) | Code::Load(_, target) => is_undefined(names, text_len, target),
    }
}

// Whether some label isn't defined, or isn't where an entry may be.
#[tactic(auto, unfolding(crate::specs::Assembled::lacks))]
fn lacks(names: &Names<Label>, text_len: u128, statement: &Statement<'_>) -> bool
    requires { IsWithin names.now text_len }
    ensures { result ≡ lacks (known names.now text_len) (view statement.now) }
{
    match statement {
        Statement::Words(operands) | Statement::OffWords(operands) => {
            some_word_lacks(names, text_len, operands)
        }
        Statement::Entry(name) => !is_entry(names, text_len, name),
        Statement::Instruction(code) => code_lacks(names, text_len, *code),
        _ => false,
    }
}

// The distance of a branch or a jump, where it is even and in its range.
#[tactic(auto, unfolding(crate::specs::Assembled::distance))]
fn distance(most: u128, at: u128, target: u128) -> Option<i32>
    requires least { 2 ≤ most }
    requires most { most < 2 ^ 30 }
    requires at { at < 2 ^ 122 }
    requires target { target < 2 ^ 122 }
    ensures value { result ≡ distance most at target }
    ensures within { IfSome result (λ z. (neg_ℤ (pos most) ≤ℤ z) × (z ≤ℤ pos (most - 2))) }
    ensures even { IfSome result (λ z. low_bits 1 z ≡ 0) }
{
    if at > target + most || target + 2 > at + most || (at + target) % 2 != 0 {
        return None;
    }
    if target >= at {
        Some((target - at) as i32)
    } else {
        Some(-((at - target) as i32))
    }
}

fn branch_word(branch: Branch<'_>, imm: i32) -> u32
    requires within { (neg_ℤ (pos 4096) ≤ℤ imm) × (imm ≤ℤ pos 4094) }
    requires even { low_bits 1 imm ≡ 0 }
    ensures { result ≡ encoded (insn branch.entry.op 0 branch.entry.rs1 branch.entry.rs2 imm) }
{
    encode(&Insn {
        op: branch.op,
        rd: 0,
        rs1: branch.rs1,
        rs2: branch.rs2,
        imm,
    })
}

fn jump_word(rd: Register, imm: i32) -> u32
    requires within { (neg_ℤ (pos 1048576) ≤ℤ imm) × (imm ≤ℤ pos 1048574) }
    requires even { low_bits 1 imm ≡ 0 }
    ensures { result ≡ encoded (insn op.Jal rd.number 0 0 imm) }
{
    encode(&Insn {
        op: Op::Jal,
        rd: rd.number,
        rs1: 0,
        rs2: 0,
        imm,
    })
}

// The words of instructions that begin at an address, where distances are in their range.
fn code_words(names: &Names<Label>, text_len: u128, at: u128, code: Code<'_>) -> Option<Insns>
    requires within { IsWithin names.now text_len }
    requires at { at < 2 ^ 122 }
    ensures { option_map words_view result ≡ code_words (known names.now text_len) at (code_view code.entry) }
{
    match code {
        Code::Fixed(insns) => Some(insns),
        Code::Branch(branch) => {
            let imm = distance(4096, at, address_of(names, text_len, branch.target))?;
            Some(Insns::One(branch_word(branch, imm)))
        }
        Code::Jump(rd, target) => {
            let imm = distance(1_048_576, at, address_of(names, text_len, target))?;
            Some(Insns::One(jump_word(rd, imm)))
        }
        Code::Load(rd, target) => {
            let value = (address_of(names, text_len, target) % 4_294_967_296) as u32;
            Some(loading(rd.number, value))
        }
    }
}

fn push_word(out: &mut Vec<u8>, word: u32) -> Result<(), AllocError>
    ensures { OnOk result (out.new.items ≡ out.old.items ++ to_le_bytes w32 word) }
{
    out.extend_from_slice(&word.to_le_bytes())
}

fn insns_bytes(alloc: Global, insns: Insns) -> Result<Vec<u8>, AllocError>
    ensures { IfOk result (λ bytes. bytes.items ≡ le_words (words_view insns)) }
{
    let mut bytes = Vec::new(alloc);
    match insns {
        Insns::One(word) => push_word(&mut bytes, word)?,
        Insns::Two(first, second) => {
            push_word(&mut bytes, first)?;
            push_word(&mut bytes, second)?;
        }
    }
    Ok(bytes)
}

fn word_value(names: &Names<Label>, text_len: u128, word: Word<'_>) -> u32
    requires { IsWithin names.now text_len }
    ensures { result ≡ word_value (known names.now text_len) (word_view word.entry) }
{
    match word {
        Word::Value(value) => value,
        Word::Address(name) => (address_of(names, text_len, name) % 4_294_967_296) as u32,
    }
}

fn words_bytes(
    alloc: Global,
    names: &Names<Label>,
    text_len: u128,
    operands: &[&[u8]],
) -> Result<Vec<u8>, AllocError>
    requires { IsWithin names.now text_len }
    ensures { IfOk result (λ bytes. bytes.items ≡ le_words (map (word_value (known names.now text_len)) (map word_of (operand_texts operands.now)))) }
{
    let mut bytes = Vec::new(alloc);
    for operand in operands {
        push_word(&mut bytes, word_value(names, text_len, word_of(operand)))?;
    }
    Ok(bytes)
}

fn zeros(alloc: Global, count: usize) -> Result<Vec<u8>, AllocError>
    ensures { IfOk result (λ bytes. bytes.items ≡ replicate count 0) }
{
    vec![in alloc; 0; count]
}

// The bytes of a statement that begins at an address, where its numbers and distances are in their range.
#[tactic(auto, unfolding(crate::specs::Assembled::content))]
fn content(
    alloc: Global,
    names: &Names<Label>,
    text_len: u128,
    at: u128,
    statement: &Statement<'_>,
) -> Result<Option<Vec<u8>>, AllocError>
    requires within { IsWithin names.now text_len }
    requires at { at < 2 ^ 122 }
    ensures { IfOk result (λ found. option_map (λ bytes. bytes.items) found ≡ content (known names.now text_len) at (view statement.now)) }
{
    match statement {
        Statement::Bytes(bytes) => Ok(Some(bytes.as_slice().to_vec(alloc)?)),
        Statement::Zero(count) => Ok(Some(zeros(alloc, *count as usize)?)),
        Statement::Words(operands) => Ok(Some(words_bytes(alloc, names, text_len, operands)?)),
        Statement::Instruction(code) => match code_words(names, text_len, at, *code) {
            None => Ok(None),
            Some(insns) => Ok(Some(insns_bytes(alloc, insns)?)),
        },
        Statement::OffInstruction | Statement::OffData | Statement::OffWords(_) => Ok(None),
        _ => Ok(Some(Vec::new(alloc))),
    }
}

// Whether the label is defined on an earlier line.
fn is_twice(names: &Names<Label>, text_len: u128, line: usize, label: Option<&[u8]>) -> bool
    ensures { result ≡ is_twice (known names.now text_len) line (option_map (λ name. name.now) label.entry) }
{
    match label {
        None => false,
        Some(name) => match names.find(name) {
            None => false,
            Some(label) => label.line < line,
        },
    }
}

fn is_long(reached: Reached) -> bool
    requires { IsSmall reached }
    ensures { result ≡ is_long reached }
{
    reached.text_len + reached.data_len > MOST_BYTES
}

// Zeros up to where the statement begins.
fn padding_before(alloc: Global, placed: &Placed<'_>) -> Result<Vec<u8>, AllocError>
    requires { IsSmall placed.now.before }
    ensures { IfOk result (λ bytes. bytes.items ≡ padding_before (placed_view placed.now)) }
{
    let count = placed.place().offset - placed.here();
    zeros(alloc, count as usize)
}

// The bytes of a line with this statement, or the first cause that it is faulty.
fn laid_statement(
    alloc: Global,
    names: &Names<Label>,
    text_len: u128,
    placed: &Placed<'_>,
    statement: &Statement<'_>,
) -> Result<Result<Vec<u8>, AsmCause>, AllocError>
    requires within { IsWithin names.now text_len }
    requires short { placed.now.before.text_len + placed.now.before.data_len ≤ 1048576 }
    ensures { IfOk result (λ found. laid_view found ≡ laid_by (known names.now text_len) (placed_view placed.now) (Ok (view statement.now))) }
{
    if lacks(names, text_len, statement) {
        return Ok(Err(AsmCause::Label));
    }
    let at = address(text_len, placed.place());
    let Some(content) = content(alloc, names, text_len, at, statement)? else {
        return Ok(Err(AsmCause::Range));
    };
    if is_long(placed.after()) {
        return Ok(Err(AsmCause::Range));
    }
    let mut bytes = padding_before(alloc, placed)?;
    bytes.extend_from_slice(&content)?;
    Ok(Ok(bytes))
}

/// The bytes that a line adds to its section, or the first cause that it is faulty.
#[tactic(auto, unfolding(crate::specs::Assembled::laid))]
pub fn laid(
    alloc: Global,
    names: &Names<Label>,
    text_len: u128,
    placed: &Placed<'_>,
) -> Result<Result<Vec<u8>, AsmCause>, AllocError>
    requires within { IsWithin names.now text_len }
    requires short { placed.now.before.text_len + placed.now.before.data_len ≤ 1048576 }
    ensures { IfOk result (λ found. laid_view found ≡ laid (known names.now text_len) (placed_view placed.now)) }
{
    if is_twice(names, text_len, placed.line, placed.label) {
        return Ok(Err(AsmCause::Twice));
    }
    match &placed.read {
        Err(cause) => Ok(Err(*cause)),
        Ok(statement) => laid_statement(alloc, names, text_len, placed, statement),
    }
}

/// The entry after a line, with the one before it.
pub fn entry_past(names: &Names<Label>, text_len: u128, entry: u128, placed: &Placed<'_>) -> u128
    requires { IsWithin names.now text_len }
    ensures { result ≡ entry_past (known names.now text_len) entry (stated (placed_view placed.now)) }
{
    match &placed.read {
        Ok(Statement::Entry(name)) => address_of(names, text_len, name),
        _ => entry,
    }
}
