// The words that begin a statement.
ghost use Rattle.std.specs.Prelude.{◌≡◌, IsTrue, IfSome, pos, ◌≤ℤ◌};
ghost use Rattle.nv_bytes.specs.Names.{defined};
ghost use Rattle.nv_asm.specs.Forms.{kinds, is_lawful, flags};

use nv_bytes::find;
use nv_isa::Op;

/// What an atomic operation orders (the manual's section 8.1).
#[derive(Clone, Copy, Debug, PartialEq, Eq)]
pub enum Order {
    Relaxed,
    /// `.aq`.
    Acquire,
    /// `.rl`.
    Release,
    /// `.aqrl`.
    AcquireRelease,
}

/// The operands of a statement that has a fixed number of them.
#[derive(Clone, Copy, Debug, PartialEq, Eq)]
pub enum Shape {
    /// rd, rs1, rs2.
    Registers(Op),
    /// rd, rs1 and a number of 12 bits.
    Immediate(Op),
    /// rd, rs1 and a number from 0 to 31.
    Shift(Op),
    /// rd, imm(rs1).
    Load(Op),
    /// rs2, imm(rs1).
    Store(Op),
    /// rd, (rs1): `lr.w`.
    Reserved(Op, Order),
    /// rd, rs2, (rs1).
    Atomic(Op, Order),
    /// rs1, rs2 and a label.
    Branch(Op),
    /// rd and a label: `jal`.
    JumpAndLink,
    /// rd and the upper 20 bits of a number.
    Upper(Op),
    /// No operand: this word.
    Alone(u32),
    /// rd and a number: `li`.
    LoadNumber,
    /// rd and a label: `la`.
    LoadAddress,
    /// rd and rs: `mv`.
    Move,
    /// A label: `j`.
    Jump,
    /// `.text`.
    Text,
    /// `.data`.
    Data,
    /// A number of bytes: `.zero`.
    Zero,
    /// A label: `.entry`.
    Entry,
}

/// What stands after the word that begins a statement.
#[derive(Clone, Copy, Debug, PartialEq, Eq)]
pub enum Kind {
    Plain(Shape),
    /// One or more numbers: `.byte`.
    Bytes,
    /// One or more numbers or labels: `.word`.
    Words,
    /// A text in quotes: `.ascii`.
    Ascii,
}

const KINDS: [(&str, Kind); 104] = [
    ("add", Kind::Plain(Shape::Registers(Op::Add))),
    ("sub", Kind::Plain(Shape::Registers(Op::Sub))),
    ("sll", Kind::Plain(Shape::Registers(Op::Sll))),
    ("slt", Kind::Plain(Shape::Registers(Op::Slt))),
    ("sltu", Kind::Plain(Shape::Registers(Op::Sltu))),
    ("xor", Kind::Plain(Shape::Registers(Op::Xor))),
    ("srl", Kind::Plain(Shape::Registers(Op::Srl))),
    ("sra", Kind::Plain(Shape::Registers(Op::Sra))),
    ("or", Kind::Plain(Shape::Registers(Op::Or))),
    ("and", Kind::Plain(Shape::Registers(Op::And))),
    ("addi", Kind::Plain(Shape::Immediate(Op::Addi))),
    ("slti", Kind::Plain(Shape::Immediate(Op::Slti))),
    ("sltiu", Kind::Plain(Shape::Immediate(Op::Sltiu))),
    ("xori", Kind::Plain(Shape::Immediate(Op::Xori))),
    ("ori", Kind::Plain(Shape::Immediate(Op::Ori))),
    ("andi", Kind::Plain(Shape::Immediate(Op::Andi))),
    ("slli", Kind::Plain(Shape::Shift(Op::Slli))),
    ("srli", Kind::Plain(Shape::Shift(Op::Srli))),
    ("srai", Kind::Plain(Shape::Shift(Op::Srai))),
    ("lb", Kind::Plain(Shape::Load(Op::Lb))),
    ("lh", Kind::Plain(Shape::Load(Op::Lh))),
    ("lw", Kind::Plain(Shape::Load(Op::Lw))),
    ("lbu", Kind::Plain(Shape::Load(Op::Lbu))),
    ("lhu", Kind::Plain(Shape::Load(Op::Lhu))),
    ("jalr", Kind::Plain(Shape::Load(Op::Jalr))),
    ("sb", Kind::Plain(Shape::Store(Op::Sb))),
    ("sh", Kind::Plain(Shape::Store(Op::Sh))),
    ("sw", Kind::Plain(Shape::Store(Op::Sw))),
    ("beq", Kind::Plain(Shape::Branch(Op::Beq))),
    ("bne", Kind::Plain(Shape::Branch(Op::Bne))),
    ("blt", Kind::Plain(Shape::Branch(Op::Blt))),
    ("bge", Kind::Plain(Shape::Branch(Op::Bge))),
    ("bltu", Kind::Plain(Shape::Branch(Op::Bltu))),
    ("bgeu", Kind::Plain(Shape::Branch(Op::Bgeu))),
    ("jal", Kind::Plain(Shape::JumpAndLink)),
    ("lui", Kind::Plain(Shape::Upper(Op::Lui))),
    ("auipc", Kind::Plain(Shape::Upper(Op::Auipc))),
    ("fence", Kind::Plain(Shape::Alone(0x0ff0_000f))),
    ("ecall", Kind::Plain(Shape::Alone(0x73))),
    ("ebreak", Kind::Plain(Shape::Alone(0x0010_0073))),
    ("nop", Kind::Plain(Shape::Alone(0x13))),
    ("li", Kind::Plain(Shape::LoadNumber)),
    ("la", Kind::Plain(Shape::LoadAddress)),
    ("mv", Kind::Plain(Shape::Move)),
    ("j", Kind::Plain(Shape::Jump)),
    (".text", Kind::Plain(Shape::Text)),
    (".data", Kind::Plain(Shape::Data)),
    (".zero", Kind::Plain(Shape::Zero)),
    (".entry", Kind::Plain(Shape::Entry)),
    (".byte", Kind::Bytes),
    (".word", Kind::Words),
    (".ascii", Kind::Ascii),
    ("mul", Kind::Plain(Shape::Registers(Op::Mul))),
    ("mulh", Kind::Plain(Shape::Registers(Op::Mulh))),
    ("mulhsu", Kind::Plain(Shape::Registers(Op::Mulhsu))),
    ("mulhu", Kind::Plain(Shape::Registers(Op::Mulhu))),
    ("div", Kind::Plain(Shape::Registers(Op::Div))),
    ("divu", Kind::Plain(Shape::Registers(Op::Divu))),
    ("rem", Kind::Plain(Shape::Registers(Op::Rem))),
    ("remu", Kind::Plain(Shape::Registers(Op::Remu))),
    (
        "lr.w",
        Kind::Plain(Shape::Reserved(Op::LoadReserved, Order::Relaxed)),
    ),
    (
        "lr.w.aq",
        Kind::Plain(Shape::Reserved(Op::LoadReserved, Order::Acquire)),
    ),
    (
        "lr.w.rl",
        Kind::Plain(Shape::Reserved(Op::LoadReserved, Order::Release)),
    ),
    (
        "lr.w.aqrl",
        Kind::Plain(Shape::Reserved(Op::LoadReserved, Order::AcquireRelease)),
    ),
    (
        "sc.w",
        Kind::Plain(Shape::Atomic(Op::StoreConditional, Order::Relaxed)),
    ),
    (
        "sc.w.aq",
        Kind::Plain(Shape::Atomic(Op::StoreConditional, Order::Acquire)),
    ),
    (
        "sc.w.rl",
        Kind::Plain(Shape::Atomic(Op::StoreConditional, Order::Release)),
    ),
    (
        "sc.w.aqrl",
        Kind::Plain(Shape::Atomic(Op::StoreConditional, Order::AcquireRelease)),
    ),
    (
        "amoswap.w",
        Kind::Plain(Shape::Atomic(Op::AmoSwap, Order::Relaxed)),
    ),
    (
        "amoswap.w.aq",
        Kind::Plain(Shape::Atomic(Op::AmoSwap, Order::Acquire)),
    ),
    (
        "amoswap.w.rl",
        Kind::Plain(Shape::Atomic(Op::AmoSwap, Order::Release)),
    ),
    (
        "amoswap.w.aqrl",
        Kind::Plain(Shape::Atomic(Op::AmoSwap, Order::AcquireRelease)),
    ),
    (
        "amoadd.w",
        Kind::Plain(Shape::Atomic(Op::AmoAdd, Order::Relaxed)),
    ),
    (
        "amoadd.w.aq",
        Kind::Plain(Shape::Atomic(Op::AmoAdd, Order::Acquire)),
    ),
    (
        "amoadd.w.rl",
        Kind::Plain(Shape::Atomic(Op::AmoAdd, Order::Release)),
    ),
    (
        "amoadd.w.aqrl",
        Kind::Plain(Shape::Atomic(Op::AmoAdd, Order::AcquireRelease)),
    ),
    (
        "amoxor.w",
        Kind::Plain(Shape::Atomic(Op::AmoXor, Order::Relaxed)),
    ),
    (
        "amoxor.w.aq",
        Kind::Plain(Shape::Atomic(Op::AmoXor, Order::Acquire)),
    ),
    (
        "amoxor.w.rl",
        Kind::Plain(Shape::Atomic(Op::AmoXor, Order::Release)),
    ),
    (
        "amoxor.w.aqrl",
        Kind::Plain(Shape::Atomic(Op::AmoXor, Order::AcquireRelease)),
    ),
    (
        "amoand.w",
        Kind::Plain(Shape::Atomic(Op::AmoAnd, Order::Relaxed)),
    ),
    (
        "amoand.w.aq",
        Kind::Plain(Shape::Atomic(Op::AmoAnd, Order::Acquire)),
    ),
    (
        "amoand.w.rl",
        Kind::Plain(Shape::Atomic(Op::AmoAnd, Order::Release)),
    ),
    (
        "amoand.w.aqrl",
        Kind::Plain(Shape::Atomic(Op::AmoAnd, Order::AcquireRelease)),
    ),
    (
        "amoor.w",
        Kind::Plain(Shape::Atomic(Op::AmoOr, Order::Relaxed)),
    ),
    (
        "amoor.w.aq",
        Kind::Plain(Shape::Atomic(Op::AmoOr, Order::Acquire)),
    ),
    (
        "amoor.w.rl",
        Kind::Plain(Shape::Atomic(Op::AmoOr, Order::Release)),
    ),
    (
        "amoor.w.aqrl",
        Kind::Plain(Shape::Atomic(Op::AmoOr, Order::AcquireRelease)),
    ),
    (
        "amomin.w",
        Kind::Plain(Shape::Atomic(Op::AmoMin, Order::Relaxed)),
    ),
    (
        "amomin.w.aq",
        Kind::Plain(Shape::Atomic(Op::AmoMin, Order::Acquire)),
    ),
    (
        "amomin.w.rl",
        Kind::Plain(Shape::Atomic(Op::AmoMin, Order::Release)),
    ),
    (
        "amomin.w.aqrl",
        Kind::Plain(Shape::Atomic(Op::AmoMin, Order::AcquireRelease)),
    ),
    (
        "amomax.w",
        Kind::Plain(Shape::Atomic(Op::AmoMax, Order::Relaxed)),
    ),
    (
        "amomax.w.aq",
        Kind::Plain(Shape::Atomic(Op::AmoMax, Order::Acquire)),
    ),
    (
        "amomax.w.rl",
        Kind::Plain(Shape::Atomic(Op::AmoMax, Order::Release)),
    ),
    (
        "amomax.w.aqrl",
        Kind::Plain(Shape::Atomic(Op::AmoMax, Order::AcquireRelease)),
    ),
    (
        "amominu.w",
        Kind::Plain(Shape::Atomic(Op::AmoMinu, Order::Relaxed)),
    ),
    (
        "amominu.w.aq",
        Kind::Plain(Shape::Atomic(Op::AmoMinu, Order::Acquire)),
    ),
    (
        "amominu.w.rl",
        Kind::Plain(Shape::Atomic(Op::AmoMinu, Order::Release)),
    ),
    (
        "amominu.w.aqrl",
        Kind::Plain(Shape::Atomic(Op::AmoMinu, Order::AcquireRelease)),
    ),
    (
        "amomaxu.w",
        Kind::Plain(Shape::Atomic(Op::AmoMaxu, Order::Relaxed)),
    ),
    (
        "amomaxu.w.aq",
        Kind::Plain(Shape::Atomic(Op::AmoMaxu, Order::Acquire)),
    ),
    (
        "amomaxu.w.rl",
        Kind::Plain(Shape::Atomic(Op::AmoMaxu, Order::Release)),
    ),
    (
        "amomaxu.w.aqrl",
        Kind::Plain(Shape::Atomic(Op::AmoMaxu, Order::AcquireRelease)),
    ),
];

/// The bits of the order in an instruction: 2 * aq + rl.
pub fn flags(order: Order) -> i32
    ensures value { result ≡ flags order }
    ensures few { (pos 0 ≤ℤ result) × (result ≤ℤ pos 3) }
{
    match order {
        Order::Relaxed => 0,
        Order::Acquire => 2,
        Order::Release => 1,
        Order::AcquireRelease => 3,
    }
}

/// What stands after this word, where it begins a statement.
#[tactic(auto, unfolding(crate::specs::Forms::kinds))]
pub fn kind_of(word: &[u8]) -> Option<Kind>
    ensures value { result ≡ defined kinds word.now }
    ensures lawful { IfSome result (λ kind. IsTrue (is_lawful kind)) }
{
    find(&KINDS, word)
}
