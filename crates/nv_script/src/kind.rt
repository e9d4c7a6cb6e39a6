// The words that begin a line.
ghost use Rattle.std.specs.Prelude.{◌≡◌};
ghost use Rattle.nv_script.specs.Entry.{in_form, kind_of};

use crate::form::Form;
use nv_bytes::find;

/// What a line is about.
#[derive(Clone, Copy, Debug, PartialEq, Eq)]
pub enum Kind {
    Argument,
    Line,
    Input,
    File,
    Clock,
    Random,
    Hand,
    Connect,
}

const KINDS: [(&str, Kind); 8] = [
    ("arg", Kind::Argument),
    ("line", Kind::Line),
    ("input", Kind::Input),
    ("file", Kind::File),
    ("clock", Kind::Clock),
    ("random", Kind::Random),
    ("hand", Kind::Hand),
    ("connect", Kind::Connect),
];

// Scripts of the first form have no `hand`, and those of the first two no `connect`.
fn in_form(form: Form, kind: Option<Kind>) -> Option<Kind>
    ensures { result ≡ in_form form kind }
{
    match kind {
        Some(Kind::Hand) if form == Form::First => None,
        Some(Kind::Connect) if form == Form::First || form == Form::Second => None,
        kind => kind,
    }
}

/// What a line that begins with this word is about, in a script of this form.
pub fn kind_of(form: Form, word: &[u8]) -> Option<Kind>
    ensures { result ≡ kind_of form word.now }
{
    in_form(form, find(&KINDS, word))
}
