// What an operation computes.
ghost use Rattle.std.specs.Prelude.{◌≡◌, ℕ, ◌^◌, ◌<◌};
ghost use Rattle.nv_machine.specs.Effects.{sum, is_below_signed, as_number, multiplied, computed, is_taken, shifted_copies, sign_extended, divided, remainder, divided_unsigned, remainder_unsigned, combined};

use nv_isa::Op;

fn is_below(a: u32, b: u32) -> bool
    ensures { result ≡ is_below_signed a b }
{
    a.cast_signed() < b.cast_signed()
}

fn shift_with_sign(a: u32, by: u32) -> u32
    requires { by < 32 }
    ensures { result ≡ shifted_copies a by }
{
    (a.cast_signed() >> by).cast_unsigned()
}

// The upper half of the product of two signed numbers.
fn high_signed(a: u32, b: u32) -> u32
    ensures { result ≡ multiplied Op.Mulh a b }
{
    let product = a.cast_signed() as i64 * b.cast_signed() as i64;
    ((product >> 32) as i32).cast_unsigned()
}

// The upper half of the product of a signed and an unsigned number.
fn high_mixed(a: u32, b: u32) -> u32
    ensures { result ≡ multiplied Op.Mulhsu a b }
{
    let product = a.cast_signed() as i64 * b as i64;
    ((product >> 32) as i32).cast_unsigned()
}

// The upper half of the product of two unsigned numbers.
fn high(a: u32, b: u32) -> u32
    ensures { result ≡ multiplied Op.Mulhu a b }
{
    let product = a as u64 * b as u64;
    (product >> 32) as u32
}

fn divide(a: u32, b: u32) -> u32
    ensures { result ≡ divided a b }
{
    if b == 0 {
        return u32::MAX;
    }
    if a == 0x8000_0000 && b == u32::MAX {
        return 0x8000_0000;
    }
    (a.cast_signed() / b.cast_signed()).cast_unsigned()
}

fn rest(a: u32, b: u32) -> u32
    ensures { result ≡ remainder a b }
{
    if b == 0 {
        return a;
    }
    if a == 0x8000_0000 && b == u32::MAX {
        return 0;
    }
    (a.cast_signed() % b.cast_signed()).cast_unsigned()
}

fn divide_unsigned(a: u32, b: u32) -> u32
    ensures { result ≡ divided_unsigned a b }
{
    if b == 0 { u32::MAX } else { a / b }
}

fn rest_unsigned(a: u32, b: u32) -> u32
    ensures { result ≡ remainder_unsigned a b }
{
    if b == 0 { a } else { a % b }
}

// The result of an operation of the extension M. For others it is 0.
fn multiply(op: Op, a: u32, b: u32) -> u32
    ensures { result ≡ multiplied op a b }
{
    match op {
        Op::Mul => a.wrapping_mul(b),
        Op::Mulh => high_signed(a, b),
        Op::Mulhsu => high_mixed(a, b),
        Op::Mulhu => high(a, b),
        Op::Div => divide(a, b),
        Op::Divu => divide_unsigned(a, b),
        Op::Rem => rest(a, b),
        Op::Remu => rest_unsigned(a, b),
        _ => 0,
    }
}

// The result of an operation on two numbers. For others it is 0. It is inlined, because its callers know the operation from the word.
#[inline(always)]
pub fn compute(op: Op, a: u32, b: u32) -> u32
    ensures { result ≡ computed op a b }
{
    match op {
        Op::Addi | Op::Add => a.wrapping_add(b),
        Op::Sub => a.wrapping_sub(b),
        Op::Slti | Op::Slt => is_below(a, b) as u32,
        Op::Sltiu | Op::Sltu => (a < b) as u32,
        Op::Xori | Op::Xor => a ^ b,
        Op::Ori | Op::Or => a | b,
        Op::Andi | Op::And => a & b,
        Op::Slli | Op::Sll => a.wrapping_shl(b),
        Op::Srli | Op::Srl => a.wrapping_shr(b),
        Op::Srai | Op::Sra => shift_with_sign(a, b % 32),
        _ => multiply(op, a, b),
    }
}

// Whether the branch is taken. For others it isn't.
pub fn takes(op: Op, a: u32, b: u32) -> bool
    ensures { result ≡ is_taken op a b }
{
    match op {
        Op::Beq => a == b,
        Op::Bne => a != b,
        Op::Blt => is_below(a, b),
        Op::Bge => !is_below(a, b),
        Op::Bltu => a < b,
        Op::Bgeu => b <= a,
        _ => false,
    }
}

// What an atomic operation stores, from the old word and the register.
pub fn combine(op: Op, old: u32, value: u32) -> u32
    ensures { result ≡ combined op old value }
{
    match op {
        Op::AmoAdd => old.wrapping_add(value),
        Op::AmoXor => old ^ value,
        Op::AmoAnd => old & value,
        Op::AmoOr => old | value,
        Op::AmoMin => { if is_below(value, old) { value } else { old } }
        Op::AmoMax => { if is_below(old, value) { value } else { old } }
        Op::AmoMinu => old.min(value),
        Op::AmoMaxu => old.max(value),
        _ => value,
    }
}
