// The words that begin an instruction.
ghost use Rattle.std.specs.Prelude.{◌≡◌};
ghost use Rattle.nv_bytes.specs.Names.{defined};
ghost use Rattle.nv_bpf_asm.specs.Statements.{forms};

use nv_bytes::find;

/// What operands an instruction takes, with its code where that is one.
#[derive(Clone, Copy, Debug, PartialEq, Eq)]
pub enum Form {
    /// None.
    Alone(u16),
    /// A constant or the register X, with the code for each.
    Sum(u16, u16),
    /// A constant or the register X, with the code for each, and two labels.
    Branch(u16, u16),
    /// A word of the scratch memory.
    Scratch(u16),
    /// A constant or the register A.
    Return,
    /// A label.
    Jump,
    /// What the register A can become.
    Load,
    /// What the register X can become.
    LoadIndex,
}

const FORMS: [(&str, Form); 21] = [
    ("ld", Form::Load),
    ("ldx", Form::LoadIndex),
    ("st", Form::Scratch(0x02)),
    ("stx", Form::Scratch(0x03)),
    ("add", Form::Sum(0x04, 0x0c)),
    ("sub", Form::Sum(0x14, 0x1c)),
    ("mul", Form::Sum(0x24, 0x2c)),
    ("div", Form::Sum(0x34, 0x3c)),
    ("or", Form::Sum(0x44, 0x4c)),
    ("and", Form::Sum(0x54, 0x5c)),
    ("lsh", Form::Sum(0x64, 0x6c)),
    ("rsh", Form::Sum(0x74, 0x7c)),
    ("neg", Form::Alone(0x84)),
    ("tax", Form::Alone(0x07)),
    ("txa", Form::Alone(0x87)),
    ("ja", Form::Jump),
    ("jeq", Form::Branch(0x15, 0x1d)),
    ("jgt", Form::Branch(0x25, 0x2d)),
    ("jge", Form::Branch(0x35, 0x3d)),
    ("jset", Form::Branch(0x45, 0x4d)),
    ("ret", Form::Return),
];

/// The form of the instructions that begin with this word.
#[tactic(auto, unfolding(crate::specs::Statements::forms))]
pub fn form_of(word: &[u8]) -> Option<Form>
    ensures { result ≡ defined forms word.now }
{
    find(&FORMS, word)
}
