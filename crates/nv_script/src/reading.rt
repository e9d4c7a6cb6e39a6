// The reader of scripts.
ghost use Rattle.std.specs.Prelude.{◌≡◌, ◌⊎◌, Ok, Err, IsTrue, IfOk, IfErr};
ghost use Rattle.nv_bytes.specs.Lines.{lines};
ghost use Rattle.nv_script.specs.Scripts.{blank, with_script_line, drafted, script_of, is_script};
ghost use Rattle.nv_script.specs.Views.{setup_of};
ghost use Rattle.nv_script.specs.inner.Views.{became};
ghost use Rattle.nv_script.specs.declared.fault.ScriptFault.TheVariants.{Memory};

use crate::draft::Draft;
use crate::entry::entry_of;
use crate::fault::{ScriptCause, ScriptFault};
use crate::form::{Form, form_of};
use crate::script::Script;
use nv_bytes::{Lines, line_number};
use std::alloc::{AllocError, Global};

#[tactic(auto, unfolding(crate::specs::Scripts::with_script_line))]
fn add_line<'a>(
    draft: &mut Draft<'a>,
    alloc: Global,
    form: Form,
    line: &'a [u8],
) -> Result<Result<(), ScriptCause>, AllocError>
    ensures { IfOk result (λ added. became draft.new added ≡ with_script_line form line.now draft.old) }
{
    match entry_of(alloc, form, line)? {
        Ok(entry) => draft.add(alloc, entry),
        Err(cause) => Ok(Err(cause)),
    }
}

// What lines say.
fn draft_of<'a>(alloc: Global, form: Form, lines: Lines<'a>) -> Result<Draft<'a>, ScriptFault>
    ensures draft { IfOk result (λ draft. drafted form lines.entry.before lines.entry.left (blank form) ≡ Ok draft) }
    ensures fault { IfErr result (λ fault. (fault ≡ Memory) ⊎ (drafted form lines.entry.before lines.entry.left (blank form) ≡ Err fault)) }
{
    let mut draft = Draft::new(alloc, form);
    for (before, line) in lines {
        if let Err(cause) = add_line(&mut draft, alloc, form, line)? {
            return Err(ScriptFault::Line(line_number(before), cause));
        }
    }
    Ok(draft)
}

/// Reads a script.
pub fn read(alloc: Global, bytes: &[u8]) -> Result<Script, ScriptFault>
    ensures script { IfOk result (λ script. script_of bytes.now ≡ Ok (setup_of script)) }

    ensures sound { IfOk result (λ script. IsTrue (is_script (setup_of script))) }

    // want of memory is the one free answer
    ensures fault { IfErr result (λ fault. (fault ≡ Memory) ⊎ (script_of bytes.now ≡ Err fault)) }
{
    let mut lines = Lines::of(bytes);
    let Some((_, first)) = lines.next() else {
        return Err(ScriptFault::Line(1, ScriptCause::Form));
    };
    let Some(form) = form_of(first) else {
        return Err(ScriptFault::Line(1, ScriptCause::Form));
    };
    let draft = draft_of(alloc, form, lines)?;
    Ok(draft.finish(form))
}
