// The statements of assembler texts.
ghost use Rattle.std.specs.Prelude.{◌≡◌, ◌≤◌, ◌<◌, ◌+◌, ◌*◌, ◌^◌, ℕ, ℤ, pos, neg_ℤ, ◌≤ℤ◌, IsTrue, [], ◌∷◌, map, length, option_map, option_and_then, IfOk, IfSome};
ghost use Rattle.std.specs.List.{list_all, prefix_len};
ghost use Rattle.std.specs.Int.{w32, cast_unsigned};
ghost use Rattle.nv_isa.specs.Spelling.{encoded, HasWord};
ghost use Rattle.nv_isa.specs.declared.op.Form.TheVariants as form;
ghost use Rattle.nv_asm.specs.Numbers.{is_number, number_of_8_bits, number_of_12_bits, number_of_32_bits};
ghost use Rattle.nv_asm.specs.Forms.{has_form, is_lawful, is_lawful_shape};
ghost use Rattle.nv_asm.specs.Statements.{closed, enclosed, is_not_open, base_register, displacement, sole_register, name, upper_of, lower_of, loading, registers_of, immediate_of, shift_of, load_of, store_of, reserved_statement, atomic_of, branch_of, jump_and_link_of, upper_number_of, load_number_of, load_address_of, move_of, jump_of, zeros_of, entry_statement, of_none, of_one, of_two, of_three, formed, single, is_byte, byte_of, bytes_of, is_item, is_word, word_of, words_of, kind_read, statement};
ghost use Rattle.nv_asm.specs.Places.{size, or_blank};
ghost use Rattle.nv_asm.specs.inner.Bounds.{most_of};
ghost use Rattle.nv_asm.specs.inner.Views.{view, word_view, words_view, result_view, operand_texts};

use crate::code::{Branch, Code, Insns, Statement, Word};
use crate::fault::AsmCause;
use crate::forms::{Kind, Order, Shape, flags, kind_of};
use crate::numbers::{Register, is_number, number, number_of_32_bits, register_of};
use crate::strings::string;
use nv_bytes::{is_name, operands};
use nv_isa::{Insn, Op, encode};
use std::alloc::{AllocError, Global};

fn number_of_8_bits(text: &[u8]) -> Option<Option<i32>>
    ensures value { result ≡ number_of_8_bits text.now }
    ensures within { IfSome result (λ read. IfSome read (λ value. (neg_ℤ (pos 128) ≤ℤ value) × (value ≤ℤ pos 255))) }
{
    number(-128, 255, text)
}

fn number_of_12_bits(text: &[u8]) -> Option<Option<i32>>
    ensures value { result ≡ number_of_12_bits text.now }
    ensures within { IfSome result (λ read. IfSome read (λ value. (neg_ℤ (pos 2048) ≤ℤ value) × (value ≤ℤ pos 2047))) }
{
    number(-2048, 2047, text)
}

fn single<'a>(insn: Insn) -> Statement<'a>
    requires { HasWord insn }
    ensures { view result ≡ single insn }
{
    Statement::Instruction(Code::Fixed(Insns::One(encode(&insn))))
}

// The upper 20 bits of a number, with a carry from the low 12.
fn upper(value: u32) -> u32
    ensures value { result ≡ upper_of value }
    ensures small { result < 2 ^ 20 }
{
    ((u64::from(value) + 0x800) / 4096 % 1_048_576) as u32
}

// The low 12 bits of a number, with their sign.
fn lower(value: u32) -> i32
    ensures value { result ≡ lower_of value }
    ensures within { (neg_ℤ (pos 2048) ≤ℤ result) × (result ≤ℤ pos 2047) }
{
    let low = (value % 4096) as i32;
    if low < 2048 { low } else { low - 4096 }
}

/// The words that load a number of 32 bits into a register.
#[tactic(auto, unfolding(crate::specs::Statements::loading))]
pub fn loading(rd: u8, value: u32) -> Insns
    requires { rd < 32 }
    ensures { words_view result ≡ loading rd value }
{
    let high = Insn {
        op: Op::Lui,
        rd,
        rs1: 0,
        rs2: 0,
        imm: (4096 * upper(value)).cast_signed(),
    };
    let low = Insn {
        op: Op::Addi,
        rd,
        rs1: rd,
        rs2: 0,
        imm: lower(value),
    };
    Insns::Two(encode(&high), encode(&low))
}

fn name(text: &[u8]) -> Option<&[u8]>
    ensures { option_map (λ name. name.now) result ≡ name text.now }
{
    if is_name(text) { Some(text) } else { None }
}

// How many bytes stand before a parenthesis.
fn open_place(text: &[u8]) -> usize
    ensures count { result ≡ prefix_len is_not_open text.now }
    ensures inside { result ≤ length text.now }
{
    text.iter().take_while(|byte| **byte != b'(').count()
}

// What stands before a closing parenthesis.
fn closed(text: &[u8]) -> Option<&[u8]>
    ensures { option_map (λ inside. inside.now) result ≡ closed text.now }
{
    match text {
        [inside @ .., b')'] => Some(inside),
        _ => None,
    }
}

// What stands in parentheses.
fn enclosed(text: &[u8]) -> Option<&[u8]>
    ensures { option_map (λ inside. inside.now) result ≡ enclosed text.now }
{
    match text {
        [] => None,
        [_, rest @ ..] => closed(rest),
    }
}

// The register of `imm(rs1)`.
fn base_register(text: &[u8]) -> Option<Register>
    ensures { option_map (λ r. r.number) result ≡ base_register text.now }
{
    register_of(enclosed(&text[open_place(text)..])?)
}

// The number of `imm(rs1)`.
fn displacement(text: &[u8]) -> Option<Option<i32>>
    ensures value { result ≡ displacement text.now }
    ensures within { IfSome result (λ read. IfSome read (λ value. (neg_ℤ (pos 2048) ≤ℤ value) × (value ≤ℤ pos 2047))) }
{
    number_of_12_bits(&text[..open_place(text)])
}

// The register of `(rs1)`.
fn sole_register(text: &[u8]) -> Option<Register>
    ensures { option_map (λ r. r.number) result ≡ sole_register text.now }
{
    if open_place(text) != 0 {
        return None;
    }
    base_register(text)
}

#[tactic(auto, unfolding(crate::specs::Statements::registers_of))]
fn registers<'a>(op: Op, rd: &[u8], rs1: &[u8], rs2: &[u8]) -> Option<Statement<'a>>
    requires { IsTrue (has_form form.Register op) }
    ensures value { option_map view result ≡ registers_of op rd.now rs1.now rs2.now }
    ensures small { IfSome result (λ s. size (view s) ≤ 1048576) }
{
    let rd = register_of(rd)?;
    let rs1 = register_of(rs1)?;
    let rs2 = register_of(rs2)?;
    Some(single(Insn {
        op,
        rd: rd.number,
        rs1: rs1.number,
        rs2: rs2.number,
        imm: 0,
    }))
}

#[tactic(auto, unfolding(crate::specs::Statements::immediate_of))]
fn immediate<'a>(op: Op, rd: &[u8], rs1: &[u8], value: &[u8]) -> Option<Statement<'a>>
    requires { IsTrue (has_form form.Immediate op) }
    ensures value { option_map view result ≡ immediate_of op rd.now rs1.now value.now }
    ensures small { IfSome result (λ s. size (view s) ≤ 1048576) }
{
    let rd = register_of(rd)?;
    let rs1 = register_of(rs1)?;
    let Some(value) = number_of_12_bits(value)? else {
        return Some(Statement::OffInstruction);
    };
    Some(single(Insn {
        op,
        rd: rd.number,
        rs1: rs1.number,
        rs2: 0,
        imm: value,
    }))
}

#[tactic(auto, unfolding(crate::specs::Statements::shift_of))]
fn shift<'a>(op: Op, rd: &[u8], rs1: &[u8], amount: &[u8]) -> Option<Statement<'a>>
    requires { IsTrue (has_form form.Shift op) }
    ensures value { option_map view result ≡ shift_of op rd.now rs1.now amount.now }
    ensures small { IfSome result (λ s. size (view s) ≤ 1048576) }
{
    let rd = register_of(rd)?;
    let rs1 = register_of(rs1)?;
    let Some(amount) = number(0, 31, amount)? else {
        return Some(Statement::OffInstruction);
    };
    Some(single(Insn {
        op,
        rd: rd.number,
        rs1: rs1.number,
        rs2: 0,
        imm: amount,
    }))
}

#[tactic(auto, unfolding(crate::specs::Statements::load_of))]
fn load<'a>(op: Op, rd: &[u8], from: &[u8]) -> Option<Statement<'a>>
    requires { IsTrue (has_form form.Immediate op) }
    ensures value { option_map view result ≡ load_of op rd.now from.now }
    ensures small { IfSome result (λ s. size (view s) ≤ 1048576) }
{
    let rd = register_of(rd)?;
    let rs1 = base_register(from)?;
    let Some(value) = displacement(from)? else {
        return Some(Statement::OffInstruction);
    };
    Some(single(Insn {
        op,
        rd: rd.number,
        rs1: rs1.number,
        rs2: 0,
        imm: value,
    }))
}

#[tactic(auto, unfolding(crate::specs::Statements::store_of))]
fn store<'a>(op: Op, rs2: &[u8], to: &[u8]) -> Option<Statement<'a>>
    requires { IsTrue (has_form form.Store op) }
    ensures value { option_map view result ≡ store_of op rs2.now to.now }
    ensures small { IfSome result (λ s. size (view s) ≤ 1048576) }
{
    let rs2 = register_of(rs2)?;
    let rs1 = base_register(to)?;
    let Some(value) = displacement(to)? else {
        return Some(Statement::OffInstruction);
    };
    Some(single(Insn {
        op,
        rd: 0,
        rs1: rs1.number,
        rs2: rs2.number,
        imm: value,
    }))
}

#[tactic(auto, unfolding(crate::specs::Statements::reserved_statement))]
fn reserved<'a>(op: Op, order: Order, rd: &[u8], at: &[u8]) -> Option<Statement<'a>>
    requires { IsTrue (has_form form.Reserve op) }
    ensures value { option_map view result ≡ reserved_statement op order rd.now at.now }
    ensures small { IfSome result (λ s. size (view s) ≤ 1048576) }
{
    let rd = register_of(rd)?;
    let rs1 = sole_register(at)?;
    Some(single(Insn {
        op,
        rd: rd.number,
        rs1: rs1.number,
        rs2: 0,
        imm: flags(order),
    }))
}

#[tactic(auto, unfolding(crate::specs::Statements::atomic_of))]
fn atomic<'a>(op: Op, order: Order, rd: &[u8], rs2: &[u8], at: &[u8]) -> Option<Statement<'a>>
    requires { IsTrue (has_form form.Atomic op) }
    ensures value { option_map view result ≡ atomic_of op order rd.now rs2.now at.now }
    ensures small { IfSome result (λ s. size (view s) ≤ 1048576) }
{
    let rd = register_of(rd)?;
    let rs2 = register_of(rs2)?;
    let rs1 = sole_register(at)?;
    Some(single(Insn {
        op,
        rd: rd.number,
        rs1: rs1.number,
        rs2: rs2.number,
        imm: flags(order),
    }))
}

#[tactic(auto, unfolding(crate::specs::Statements::branch_of))]
fn branch<'a>(op: Op, rs1: &[u8], rs2: &[u8], target: &'a [u8]) -> Option<Statement<'a>>
    requires { IsTrue (has_form form.Branch op) }
    ensures value { option_map view result ≡ branch_of op rs1.now rs2.now target.now }
    ensures small { IfSome result (λ s. size (view s) ≤ 1048576) }
{
    let rs1 = register_of(rs1)?;
    let rs2 = register_of(rs2)?;
    let target = name(target)?;
    Some(Statement::Instruction(Code::Branch(Branch {
        op,
        rs1: rs1.number,
        rs2: rs2.number,
        target,
    })))
}

#[tactic(auto, unfolding(crate::specs::Statements::jump_and_link_of))]
fn jump_and_link<'a>(rd: &[u8], target: &'a [u8]) -> Option<Statement<'a>>
    ensures value { option_map view result ≡ jump_and_link_of rd.now target.now }
    ensures small { IfSome result (λ s. size (view s) ≤ 1048576) }
{
    let rd = register_of(rd)?;
    let target = name(target)?;
    Some(Statement::Instruction(Code::Jump(rd, target)))
}

#[tactic(auto, unfolding(crate::specs::Statements::upper_number_of))]
fn upper_number<'a>(op: Op, rd: &[u8], value: &[u8]) -> Option<Statement<'a>>
    requires { IsTrue (has_form form.Upper op) }
    ensures value { option_map view result ≡ upper_number_of op rd.now value.now }
    ensures small { IfSome result (λ s. size (view s) ≤ 1048576) }
{
    let rd = register_of(rd)?;
    let Some(value) = number(0, 0xf_ffff, value)? else {
        return Some(Statement::OffInstruction);
    };
    Some(single(Insn {
        op,
        rd: rd.number,
        rs1: 0,
        rs2: 0,
        imm: (4096 * value as u32).cast_signed(),
    }))
}

// The low 32 bits of a number.
fn low_word(value: i64) -> u32
    requires least { neg_ℤ (pos 4294967296) ≤ℤ value }
    requires most { value ≤ℤ pos 4294967295 }
    ensures { result ≡ cast_unsigned w32 value }
{
    if value < 0 {
        (value + 4_294_967_296) as u32
    } else {
        value as u32
    }
}

#[tactic(auto, unfolding(crate::specs::Statements::load_number_of))]
fn load_number<'a>(rd: &[u8], value: &[u8]) -> Option<Statement<'a>>
    ensures value { option_map view result ≡ load_number_of rd.now value.now }
    ensures small { IfSome result (λ s. size (view s) ≤ 1048576) }
{
    let rd = register_of(rd)?;
    let Some(value) = number_of_32_bits(value)? else {
        return Some(Statement::OffInstruction);
    };
    Some(Statement::Instruction(Code::Fixed(loading(rd.number, low_word(value)))))
}

#[tactic(auto, unfolding(crate::specs::Statements::load_address_of))]
fn load_address<'a>(rd: &[u8], target: &'a [u8]) -> Option<Statement<'a>>
    ensures value { option_map view result ≡ load_address_of rd.now target.now }
    ensures small { IfSome result (λ s. size (view s) ≤ 1048576) }
{
    let rd = register_of(rd)?;
    let target = name(target)?;
    Some(Statement::Instruction(Code::Load(rd, target)))
}

#[tactic(auto, unfolding(crate::specs::Statements::move_of))]
fn move_register<'a>(rd: &[u8], rs: &[u8]) -> Option<Statement<'a>>
    ensures value { option_map view result ≡ move_of rd.now rs.now }
    ensures small { IfSome result (λ s. size (view s) ≤ 1048576) }
{
    let rd = register_of(rd)?;
    let rs1 = register_of(rs)?;
    Some(single(Insn {
        op: Op::Addi,
        rd: rd.number,
        rs1: rs1.number,
        rs2: 0,
        imm: 0,
    }))
}

#[tactic(auto, unfolding(crate::specs::Statements::jump_of))]
fn jump(target: &[u8]) -> Option<Statement<'_>>
    ensures value { option_map view result ≡ jump_of target.now }
    ensures small { IfSome result (λ s. size (view s) ≤ 1048576) }
{
    let target = name(target)?;
    Some(Statement::Instruction(Code::Jump(Register { number: 0 }, target)))
}

#[tactic(auto, unfolding(crate::specs::Statements::zeros_of))]
fn zeros<'a>(count: &[u8]) -> Option<Statement<'a>>
    ensures value { option_map view result ≡ zeros_of count.now }
    ensures small { IfSome result (λ s. size (view s) ≤ 1048576) }
{
    match number(0, 1_048_576, count)? {
        None => Some(Statement::OffData),
        Some(count) => Some(Statement::Zero(count as u32)),
    }
}

#[tactic(auto, unfolding(crate::specs::Statements::entry_statement))]
fn entry(target: &[u8]) -> Option<Statement<'_>>
    ensures value { option_map view result ≡ entry_statement target.now }
    ensures small { IfSome result (λ s. size (view s) ≤ 1048576) }
{
    Some(Statement::Entry(name(target)?))
}

fn of_none<'a>(shape: Shape) -> Option<Statement<'a>>
    ensures value { option_map view result ≡ of_none shape }
    ensures small { IfSome result (λ s. size (view s) ≤ 1048576) }
{
    match shape {
        Shape::Alone(word) => Some(Statement::Instruction(Code::Fixed(Insns::One(word)))),
        Shape::Text => Some(Statement::Text),
        Shape::Data => Some(Statement::Data),
        _ => None,
    }
}

fn of_one(shape: Shape, a: &[u8]) -> Option<Statement<'_>>
    ensures value { option_map view result ≡ of_one shape a.now }
    ensures small { IfSome result (λ s. size (view s) ≤ 1048576) }
{
    match shape {
        Shape::Jump => jump(a),
        Shape::Zero => zeros(a),
        Shape::Entry => entry(a),
        _ => None,
    }
}

fn of_two<'a>(shape: Shape, a: &[u8], b: &'a [u8]) -> Option<Statement<'a>>
    requires { IsTrue (is_lawful_shape shape) }
    ensures value { option_map view result ≡ of_two shape a.now b.now }
    ensures small { IfSome result (λ s. size (view s) ≤ 1048576) }
{
    match shape {
        Shape::Load(op) => load(op, a, b),
        Shape::Store(op) => store(op, a, b),
        Shape::Reserved(op, order) => reserved(op, order, a, b),
        Shape::Upper(op) => upper_number(op, a, b),
        Shape::JumpAndLink => jump_and_link(a, b),
        Shape::LoadNumber => load_number(a, b),
        Shape::LoadAddress => load_address(a, b),
        Shape::Move => move_register(a, b),
        _ => None,
    }
}

fn of_three<'a>(shape: Shape, a: &[u8], b: &[u8], c: &'a [u8]) -> Option<Statement<'a>>
    requires { IsTrue (is_lawful_shape shape) }
    ensures value { option_map view result ≡ of_three shape a.now b.now c.now }
    ensures small { IfSome result (λ s. size (view s) ≤ 1048576) }
{
    match shape {
        Shape::Registers(op) => registers(op, a, b, c),
        Shape::Immediate(op) => immediate(op, a, b, c),
        Shape::Shift(op) => shift(op, a, b, c),
        Shape::Atomic(op, order) => atomic(op, order, a, b, c),
        Shape::Branch(op) => branch(op, a, b, c),
        _ => None,
    }
}

// The statement of these operands, where they are of the shape.
#[tactic(auto, unfolding(crate::specs::Statements::formed))]
fn formed<'a>(shape: Shape, operands: &[&'a [u8]]) -> Option<Statement<'a>>
    requires { IsTrue (is_lawful_shape shape) }
    ensures value { option_map view result ≡ formed shape (operand_texts operands.now) }
    ensures small { IfSome result (λ s. size (view s) ≤ 1048576) }
{
    match operands {
        [] => of_none(shape),
        [a] => of_one(shape, a),
        [a, b] => of_two(shape, a, b),
        [a, b, c] => of_three(shape, a, b, c),
        _ => None,
    }
}

fn is_byte(text: &[u8]) -> bool
    ensures { result ≡ is_byte text.now }
{
    matches!(number_of_8_bits(text), Some(Some(_)))
}

fn byte_of(text: &[u8]) -> u8
    ensures { result ≡ byte_of text.now }
{
    match number_of_8_bits(text) {
        Some(Some(value)) if value < 0 => (value + 256) as u8,
        Some(Some(value)) => value as u8,
        _ => 0,
    }
}

fn is_item(text: &[u8]) -> bool
    ensures { result ≡ is_item text.now }
{
    is_name(text) || is_number(text)
}

fn is_word(text: &[u8]) -> bool
    ensures { result ≡ is_word text.now }
{
    is_name(text) || matches!(number_of_32_bits(text), Some(Some(_)))
}

/// The word of an operand of `.word`.
#[tactic(auto, unfolding(crate::specs::Statements::word_of))]
pub fn word_of(text: &[u8]) -> Word<'_>
    ensures { word_view result ≡ word_of text.now }
{
    if is_name(text) {
        return Word::Address(text);
    }
    match number_of_32_bits(text) {
        Some(Some(value)) => Word::Value(low_word(value)),
        _ => Word::Value(0),
    }
}

fn are_numbers(operands: &[&[u8]]) -> bool
    ensures { result ≡ list_all is_number (operand_texts operands.now) }
{
    for operand in operands {
        if !is_number(operand) {
            return false;
        }
    }
    true
}

fn are_bytes(operands: &[&[u8]]) -> bool
    ensures { result ≡ list_all is_byte (operand_texts operands.now) }
{
    for operand in operands {
        if !is_byte(operand) {
            return false;
        }
    }
    true
}

fn are_items(operands: &[&[u8]]) -> bool
    ensures { result ≡ list_all is_item (operand_texts operands.now) }
{
    for operand in operands {
        if !is_item(operand) {
            return false;
        }
    }
    true
}

fn are_words(operands: &[&[u8]]) -> bool
    ensures { result ≡ list_all is_word (operand_texts operands.now) }
{
    for operand in operands {
        if !is_word(operand) {
            return false;
        }
    }
    true
}

fn byte_list(alloc: Global, operands: &[&[u8]]) -> Result<Vec<u8>, AllocError>
    ensures value { IfOk result (λ bytes. bytes.items ≡ map byte_of (operand_texts operands.now)) }
    ensures len { IfOk result (λ bytes. length bytes.items ≡ length operands.now) }
{
    let mut bytes = Vec::new(alloc);
    for operand in operands {
        bytes.push(byte_of(operand))?;
    }
    Ok(bytes)
}

// The statement of `.byte`.
#[tactic(auto, unfolding(crate::specs::Statements::bytes_of))]
fn bytes<'a>(alloc: Global, operands: &[&[u8]]) -> Result<Option<Statement<'a>>, AllocError>
    ensures value { IfOk result (λ found. option_map view found ≡ bytes_of (operand_texts operands.now)) }
    ensures small { IfOk result (λ found. IfSome found (λ s. size (view s) ≤ length operands.now)) }
{
    if operands.is_empty() || !are_numbers(operands) {
        return Ok(None);
    }
    if !are_bytes(operands) {
        return Ok(Some(Statement::OffData));
    }
    Ok(Some(Statement::Bytes(byte_list(alloc, operands)?)))
}

// The statement of `.word`.
#[tactic(auto, unfolding(crate::specs::Statements::words_of))]
fn words(operands: Vec<&[u8]>) -> Option<Statement<'_>>
    ensures value { option_map view result ≡ words_of (operand_texts operands.entry.items) }
    ensures small { IfSome result (λ s. size (view s) ≤ 4 * length operands.entry.items) }
{
    if operands.is_empty() || !are_items(&operands) {
        return None;
    }
    if !are_words(&operands) {
        return Some(Statement::OffWords(operands));
    }
    Some(Statement::Words(operands))
}

// The statement of a kind, where its operands are of its form.
fn read<'a>(alloc: Global, kind: Kind, rest: &'a [u8]) -> Result<Option<Statement<'a>>, AllocError>
    requires { IsTrue (is_lawful kind) }
    ensures value { IfOk result (λ found. option_map view found ≡ kind_read kind rest.now) }
    ensures small { IfOk result (λ found. IfSome found (λ s. size (view s) ≤ most_of (length rest.now))) }
{
    match kind {
        Kind::Plain(shape) => {
            let operands = operands(alloc, rest)?;
            Ok(formed(shape, &operands))
        }
        Kind::Bytes => {
            let operands = operands(alloc, rest)?;
            bytes(alloc, &operands)
        }
        Kind::Words => Ok(words(operands(alloc, rest)?)),
        Kind::Ascii => match string(alloc, rest)? {
            Some(bytes) => Ok(Some(Statement::Bytes(bytes))),
            None => Ok(None),
        },
    }
}

/// The statement of a first word and the rest after it, or why it has none.
#[tactic(auto, unfolding(crate::specs::Statements::statement))]
pub fn statement_of<'a>(
    alloc: Global,
    word: &[u8],
    rest: &'a [u8],
) -> Result<Result<Statement<'a>, AsmCause>, AllocError>
    ensures value { IfOk result (λ stated. result_view stated ≡ statement word.now rest.now) }
    ensures small { IfOk result (λ stated. size (or_blank (result_view stated)) ≤ most_of (length rest.now)) }
{
    if word.is_empty() {
        return Ok(Ok(Statement::Blank));
    }
    let Some(kind) = kind_of(word) else {
        return Ok(Err(AsmCause::Mnemonic));
    };
    match read(alloc, kind, rest)? {
        Some(statement) => Ok(Ok(statement)),
        None => Ok(Err(AsmCause::Operand)),
    }
}
