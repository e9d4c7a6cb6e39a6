// The forms of a script.
ghost use Rattle.std.specs.Prelude.{◌≡◌};
ghost use Rattle.nv_script.specs.Entry.{form_of, is_fifth};

use nv_bytes::is;

/// Which lines a script may have.
#[derive(Clone, Copy, Debug, PartialEq, Eq)]
pub enum Form {
    /// `varan-script 1`: every line but `hand` and `connect`.
    First,
    /// `varan-script 2`: every line but `connect`.
    Second,
    /// `varan-script 3`: every line but those of arrivals.
    Third,
    /// `varan-script 4`: what comes from outside are arrivals, which come one after another.
    Fourth,
    /// `varan-script 5`: the time is among what comes, and calls wait for it and for several things at once.
    Fifth,
}

/// The form that a script's first line names.
#[tactic(auto, unfolding(crate::specs::Entry::form_of))]
pub fn form_of(line: &[u8]) -> Option<Form>
    ensures { result ≡ form_of line.now }
{
    if is(line, "varan-script 1") {
        Some(Form::First)
    } else if is(line, "varan-script 2") {
        Some(Form::Second)
    } else if is(line, "varan-script 3") {
        Some(Form::Third)
    } else if is(line, "varan-script 4") {
        Some(Form::Fourth)
    } else if is(line, "varan-script 5") {
        Some(Form::Fifth)
    } else {
        None
    }
}

/// Whether it is the fifth form.
pub fn is_fifth(form: Form) -> bool
    ensures { result ≡ is_fifth form }
{
    match form {
        Form::First | Form::Second | Form::Third | Form::Fourth => false,
        Form::Fifth => true,
    }
}
