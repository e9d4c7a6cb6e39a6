// The first pass: where each label is first defined, and how long the text section is.
ghost use Rattle.std.specs.Prelude.{◌≡◌, ◌≤◌, ◌^◌, ℕ, List, IfOk, OnOk, length};
ghost use Rattle.nv_bytes.specs.Lines.{lines};
ghost use Rattle.nv_bytes.specs.Names.{defined, defining};
ghost use Rattle.nv_asm.specs.Places.{after, marked, placed, placed_line, size, nothing_reached, stated};
ghost use Rattle.nv_asm.specs.inner.Bounds.{most_of};
ghost use Rattle.nv_asm.specs.declared.place.Label.{Label};
ghost use Rattle.nv_asm.specs.inner.Lines.{placed_view, IsSmall};
ghost use Rattle.nv_asm.specs.Assembled.{Whole, whole_of};
ghost use Rattle.nv_asm.specs.inner.Known.{IsWithin, defined_among, IsBelow};

use crate::place::{Label, Reached, Section};
use crate::placed::{Placed, placed_line};
use nv_bytes::{Lines, Names};
use std::alloc::{AllocError, Global};

/// Before the first line.
pub const START: Reached = Reached {
    section: Section::Text,
    text_len: 0,
    data_len: 0,
};

// Defines the line's label, if it has one that isn't defined yet.
fn define<'a>(names: &mut Names<'a, Label>, placed: &Placed<'a>) -> Result<(), AllocError>
    requires { IsSmall placed.now.before }
    ensures known { OnOk result ((rest : List (List ℕ × Label)) (name : List ℕ) → defined_among names.old (defining (placed_view placed.now).label (marked (placed_view placed.now)).1 rest) name ≡ defined_among names.new rest name) }
    ensures below { OnOk result (IsBelow (2 ^ 121) names.old → IsBelow (2 ^ 121) names.new) }
{
    let Some(name) = placed.label else {
        return Ok(());
    };
    let label = Label {
        line: placed.line,
        place: placed.place(),
    };
    names.define(name, label)?;
    Ok(())
}

// Defines a line's label, and tells how far the text has come after it.
fn take_up<'a>(
    alloc: Global,
    names: &mut Names<'a, Label>,
    line: usize,
    before: Reached,
    content: &'a [u8],
) -> Result<Reached, AllocError>
    requires { IsSmall before }
    ensures reached { IfOk result (λ reached. reached ≡ after (placed_line line before content.now)) }
    ensures small { IfOk result (λ reached. size (stated (placed_line line before content.now)) ≤ most_of (length content.now)) }
    ensures known { OnOk result ((rest : List (List ℕ × Label)) (name : List ℕ) → defined_among names.old (defining (placed_line line before content.now).label (marked (placed_line line before content.now)).1 rest) name ≡ defined_among names.new rest name) }
    ensures below { OnOk result (IsBelow (2 ^ 121) names.old → IsBelow (2 ^ 121) names.new) }
{
    let placed = placed_line(alloc, line, before, content)?;
    define(names, &placed)?;
    Ok(placed.after())
}

/// What each label is first defined as, and how long the text section is.
pub fn labels<'a>(alloc: Global, text: &'a [u8]) -> Result<(Names<'a, Label>, u128), AllocError>
    ensures names { IfOk result (λ defined_among. (name : List ℕ) → defined defined_among.0 name ≡ (whole_of (placed 0 nothing_reached (lines text.now))).find name) }
    ensures text_len { IfOk result (λ defined_among. defined_among.1 ≡ (whole_of (placed 0 nothing_reached (lines text.now))).text_len) }
    ensures within { IfOk result (λ defined_among. IsWithin defined_among.0 defined_among.1) }
{
    let mut names = Names::new(alloc);
    let mut reached = START;
    for (line, content) in Lines::of(text) {
        reached = take_up(alloc, &mut names, line, reached, content)?;
    }
    Ok((names, reached.text_len))
}
