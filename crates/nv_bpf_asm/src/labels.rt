// The labels of a rule text.
ghost use Rattle.std.specs.Prelude.{◌≡◌, ℕ, List, IfOk};
ghost use Rattle.nv_bytes.specs.Lines.{lines};
ghost use Rattle.nv_bytes.specs.Names.{defined};
ghost use Rattle.nv_bytes.specs.Parts.{parts_of};
ghost use Rattle.nv_bpf_asm.specs.Assembled.{line_parts, word_count, labels};

use crate::label::Label;
use nv_bytes::{Line, Lines, Names, cut, line_of};
use std::alloc::{AllocError, Global};

/// The parts of a line, without its comment.
#[tactic(auto, unfolding(crate::specs::Assembled::line_parts))]
pub fn line_parts(line: &[u8]) -> Line<'_>
    ensures { parts_of result ≡ line_parts line.now }
{
    let (statement, _) = cut(line, b';');
    line_of(statement)
}

/// How many instructions a line with this first word has.
pub fn word_count(word: &[u8]) -> usize
    ensures { result ≡ word_count word.now }
{
    if word.is_empty() { 0 } else { 1 }
}

/// What each label of a text is first defined as.
pub fn labels<'a>(alloc: Global, text: &'a [u8]) -> Result<Names<'a, Label>, AllocError>
    ensures { IfOk result (λ names. (name : List ℕ) → defined names name ≡ defined (labels 0 0 (lines text.now)) name) }
{
    let mut names = Names::new(alloc);
    let mut place = 0usize;
    for (line, content) in Lines::of(text) {
        let parts = line_parts(content);
        if let Some(name) = parts.label {
            names.define(name, Label { line, place })?;
        }
        place += word_count(parts.word);
    }
    Ok(names)
}
