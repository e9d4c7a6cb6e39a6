// Where a word keeps its registers, and the immediate of each form: the manual's sections 2.2, 2.3 and 8.1.
ghost use Rattle.std.specs.Prelude.{◌≡◌, ℕ, ◌/◌, ◌%◌, ◌^◌, ◌<◌, ◌*◌, ◌+◌, ℤ};
ghost use Rattle.nv_isa.specs.Table.{immediate, signed_value, rd_of, rs1_of, rs2_of};

use crate::op::Form;

/// The register that an instruction writes.
pub fn rd(word: u32) -> u8
    ensures { result ≡ rd_of word }
{
    (word >> 7 & 31) as u8
}

/// The first register that an instruction reads.
pub fn rs1(word: u32) -> u8
    ensures { result ≡ rs1_of word }
{
    (word >> 15 & 31) as u8
}

/// The second register that an instruction reads.
pub fn rs2(word: u32) -> u8
    ensures { result ≡ rs2_of word }
{
    (word >> 20 & 31) as u8
}

/// The immediate of an instruction of the form.
pub fn immediate(form: Form, word: u32) -> i32
    ensures { result ≡ immediate form word }
{
    match form {
        Form::Register | Form::Whole => 0,
        Form::Immediate => signed_12(word >> 20),
        Form::Shift => (word >> 20 & 31) as i32,
        Form::Atomic | Form::Reserve => (word >> 25 & 3) as i32,
        Form::Store => signed_12((word >> 25) * 32 + (word >> 7 & 31)),
        Form::Branch => {
            let low = (word >> 7 & 1) * 2048 + (word >> 25 & 63) * 32 + (word >> 8 & 15) * 2;
            low as i32 - (word >> 31) as i32 * 4096
        }
        Form::Upper => ((word >> 12) * 4096).cast_signed(),
        Form::Jump => {
            let high = (word >> 12 & 255) * 4096 + (word >> 20 & 1) * 2048;
            let low = high + (word >> 21 & 1023) * 2;
            low as i32 - (word >> 31) as i32 * 1_048_576
        }
    }
}

// In the form that is compiled into one shift.
fn signed_12(bits: u32) -> i32
    requires { bits < 2 ^ 12 }
    ensures { result ≡ signed_value 12 bits }
{
    ((bits + 2048) % 4096) as i32 - 2048
}
