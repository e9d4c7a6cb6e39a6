// The operations of RV32IMA, and where their words keep their fields.

/// The operations of RV32IMA, one for each row of the table.
///
/// The sections are those of the RISC-V Instruction Set Manual, Volume I: Unprivileged ISA (20191213): chapter 2 is RV32I,
/// chapter 7 the extension M, chapter 8 the extension A.
#[derive(Clone, Copy, Debug, PartialEq, Eq)]
pub enum Op {
    /// Load upper immediate (section 2.4).
    Lui,
    /// Add upper immediate to pc (section 2.4).
    Auipc,
    /// Jump and link (section 2.5).
    Jal,
    /// Jump and link register (section 2.5).
    Jalr,
    /// Branch if equal (section 2.5).
    Beq,
    /// Branch if not equal (section 2.5).
    Bne,
    /// Branch if less than, signed (section 2.5).
    Blt,
    /// Branch if greater or equal, signed (section 2.5).
    Bge,
    /// Branch if less than, unsigned (section 2.5).
    Bltu,
    /// Branch if greater or equal, unsigned (section 2.5).
    Bgeu,
    /// Load byte, with its sign (section 2.6).
    Lb,
    /// Load half word, with its sign (section 2.6).
    Lh,
    /// Load word (section 2.6).
    Lw,
    /// Load byte, with zeros (section 2.6).
    Lbu,
    /// Load half word, with zeros (section 2.6).
    Lhu,
    /// Store byte (section 2.6).
    Sb,
    /// Store half word (section 2.6).
    Sh,
    /// Store word (section 2.6).
    Sw,
    /// Add immediate (section 2.4).
    Addi,
    /// Set if less than immediate, signed (section 2.4).
    Slti,
    /// Set if less than immediate, unsigned (section 2.4).
    Sltiu,
    /// Exclusive or with immediate (section 2.4).
    Xori,
    /// Or with immediate (section 2.4).
    Ori,
    /// And with immediate (section 2.4).
    Andi,
    /// Shift left by immediate (section 2.4).
    Slli,
    /// Shift right by immediate, with zeros (section 2.4).
    Srli,
    /// Shift right by immediate, with the sign (section 2.4).
    Srai,
    /// Add (section 2.4).
    Add,
    /// Subtract (section 2.4).
    Sub,
    /// Shift left (section 2.4).
    Sll,
    /// Set if less than, signed (section 2.4).
    Slt,
    /// Set if less than, unsigned (section 2.4).
    Sltu,
    /// Exclusive or (section 2.4).
    Xor,
    /// Shift right, with zeros (section 2.4).
    Srl,
    /// Shift right, with the sign (section 2.4).
    Sra,
    /// Or (section 2.4).
    Or,
    /// And (section 2.4).
    And,
    /// Order memory accesses (section 2.7).
    Fence,
    /// Call the environment (section 2.8).
    Ecall,
    /// Breakpoint (section 2.8).
    Ebreak,
    /// Multiply: the low word of the product (section 7.1).
    Mul,
    /// The high word of the product, signed by signed (section 7.1).
    Mulh,
    /// The high word of the product, signed by unsigned (section 7.1).
    Mulhsu,
    /// The high word of the product, unsigned by unsigned (section 7.1).
    Mulhu,
    /// Divide, signed (section 7.2).
    Div,
    /// Divide, unsigned (section 7.2).
    Divu,
    /// Remainder, signed (section 7.2).
    Rem,
    /// Remainder, unsigned (section 7.2).
    Remu,
    /// LR.W: load a word and reserve its address (section 8.2).
    LoadReserved,
    /// SC.W: store a word where its address is reserved (section 8.2).
    StoreConditional,
    /// Swap a register and a word of memory (section 8.4, as the eight below).
    AmoSwap,
    /// Add to a word of memory.
    AmoAdd,
    /// Exclusive or with a word of memory.
    AmoXor,
    /// And with a word of memory.
    AmoAnd,
    /// Or with a word of memory.
    AmoOr,
    /// The lesser of a register and a word of memory, signed.
    AmoMin,
    /// The greater of a register and a word of memory, signed.
    AmoMax,
    /// The lesser of a register and a word of memory, unsigned.
    AmoMinu,
    /// The greater of a register and a word of memory, unsigned.
    AmoMaxu,
}

/// Where a word keeps its fields (sections 2.2 and 2.3 of the manual).
#[derive(Clone, Copy, Debug, PartialEq, Eq)]
pub enum Form {
    /// rd, rs1 and rs2: the manual's R-type.
    Register,
    /// rd, rs1 and a signed immediate of 12 bits: I-type.
    Immediate,
    /// rd, rs1 and a shift amount of 5 bits in the place of rs2: a form of I-type.
    Shift,
    /// rs1, rs2 and a signed immediate of 12 bits in two parts: S-type.
    Store,
    /// rs1, rs2 and a signed even distance of 13 bits: B-type.
    Branch,
    /// rd and the upper 20 bits of an immediate: U-type.
    Upper,
    /// rd and a signed even distance of 21 bits: J-type.
    Jump,
    /// No field: the operation is one word.
    Whole,
    /// rd, rs1, rs2, and the bits aq and rl (section 8.1): R-type.
    Atomic,
    /// rd, rs1, and the bits aq and rl; the place of rs2 is 0.
    Reserve,
}

/// An instruction. A field that its form lacks is 0.
#[derive(Clone, Copy, Debug, PartialEq, Eq)]
pub struct Insn {
    pub op: Op,
    /// The register that is written.
    pub rd: u8,
    /// The first register that is read.
    pub rs1: u8,
    /// The second register that is read.
    pub rs2: u8,
    /// The immediate; of an upper immediate all 32 bits, of a shift the amount, of an atomic operation 2 * aq + rl.
    pub imm: i32,
}
