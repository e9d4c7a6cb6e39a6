// The words of a line.
ghost use Rattle.std.specs.Prelude.{◌≡◌, ◌≤◌, ◌-◌, Some, None, map, drop, take, length, IfOk, option_map};
ghost use Rattle.std.specs.List.{list_all, prefix_len, suffix_len, slice_split};
ghost use Rattle.nv_bytes.specs.Lines.{is_blank, is_not_blank, is_comma, is_letter, is_name_byte, trim_start, trim_end, trim, operands_of, operands, begins_name, is_name, line_with, parted, line_of};
ghost use Rattle.nv_bytes.specs.Parts.{parts_of};

use crate::fields::cut;
use std::alloc::{AllocError, Global};

/// A line without its comment: its label, its first word and the rest.
#[derive(Clone, Copy)]
pub struct Line<'a> {
    pub label: Option<&'a [u8]>,
    pub word: &'a [u8],
    pub rest: &'a [u8],
}

fn is_blank(byte: u8) -> bool
    ensures { result ≡ is_blank byte }
{
    byte == b' ' || byte == b'\t'
}

fn is_letter(byte: u8) -> bool
    ensures { result ≡ is_letter byte }
{
    (byte >= b'A' && byte <= b'Z') || (byte >= b'a' && byte <= b'z') || byte == b'_'
}

fn is_name_byte(byte: u8) -> bool
    ensures { result ≡ is_name_byte byte }
{
    is_letter(byte) || (byte >= b'0' && byte <= b'9')
}

fn blanks(text: &[u8]) -> usize
    ensures count { result ≡ prefix_len is_blank text.now }
    ensures inside { result ≤ length text.now }
{
    text.iter().take_while(|byte| is_blank(**byte)).count()
}

fn word_len(text: &[u8]) -> usize
    ensures count { result ≡ prefix_len is_not_blank text.now }
    ensures inside { result ≤ length text.now }
{
    text.iter().take_while(|byte| !is_blank(**byte)).count()
}

fn name_len(text: &[u8]) -> usize
    ensures count { result ≡ prefix_len is_name_byte text.now }
    ensures inside { result ≤ length text.now }
{
    text.iter().take_while(|byte| is_name_byte(**byte)).count()
}

fn trim_start(text: &[u8]) -> &[u8]
    ensures { result.now ≡ trim_start text.now }
{
    &text[blanks(text)..]
}

fn trim_end(text: &[u8]) -> &[u8]
    ensures { result.now ≡ trim_end text.now }
{
    let mut end = text.len();
    while end > 0 && is_blank(text[end - 1]) {
        end -= 1;
    }
    &text[..end]
}

/// The text without its spaces and tabs at both ends.
#[tactic(auto, unfolding(crate::specs::Lines::trim))]
pub fn trim(text: &[u8]) -> &[u8]
    ensures { result.now ≡ trim text.now }
{
    trim_end(trim_start(text))
}

/// Letters, digits and `_`, not beginning with a digit.
#[tactic(auto, unfolding(crate::specs::Lines::is_name))]
pub fn is_name(text: &[u8]) -> bool
    ensures { result ≡ is_name text.now }
{
    begins_name(text) && are_name_bytes(text)
}

fn begins_name(text: &[u8]) -> bool
    ensures { result ≡ begins_name text.now }
{
    match text {
        [] => false,
        [first, ..] => is_letter(*first),
    }
}

fn are_name_bytes(text: &[u8]) -> bool
    ensures { result ≡ list_all is_name_byte text.now }
{
    text.iter().all(|byte| is_name_byte(*byte))
}

fn line_with<'a>(label: Option<&'a [u8]>, text: &'a [u8]) -> Line<'a>
    ensures { parts_of result ≡ line_with (option_map (λ label. label.now) label.entry) text.now }
{
    let (word, rest) = text.split_at(word_len(text));
    Line {
        label,
        word,
        rest: trim_start(rest),
    }
}

#[tactic(auto, unfolding(crate::specs::Lines::parted))]
fn parted(text: &[u8]) -> Line<'_>
    ensures { parts_of result ≡ parted text.now }
{
    let (name, after) = text.split_at(name_len(text));
    match after {
        [b':', rest @ ..] if is_name(name) => line_with(Some(name), trim(rest)),
        _ => line_with(None, text),
    }
}

/// The parts of a line without comment.
#[tactic(auto, unfolding(crate::specs::Lines::line_of))]
pub fn line_of(text: &[u8]) -> Line<'_>
    ensures { parts_of result ≡ line_of text.now }
{
    parted(trim(text))
}

fn pieces<'a>(alloc: Global, text: &'a [u8]) -> Result<Vec<&'a [u8]>, AllocError>
    ensures { IfOk result (λ pieces. map (λ piece. piece.now) pieces.items ≡ map trim (slice_split is_comma text.now)) }
{
    let mut pieces = Vec::new(alloc);
    let mut rest = text;
    loop {
        let (piece, after) = cut(rest, b',');
        pieces.push(trim(piece))?;
        match after {
            None => return Ok(pieces),
            Some(later) => rest = later,
        }
    }
}

/// The operands of a statement, which commas separate.
#[tactic(auto, unfolding(crate::specs::Lines::operands))]
pub fn operands<'a>(alloc: Global, rest: &'a [u8]) -> Result<Vec<&'a [u8]>, AllocError>
    ensures { IfOk result (λ found. map (λ operand. operand.now) found.items ≡ operands rest.now) }
{
    let rest = trim(rest);
    if rest.is_empty() {
        return Ok(Vec::new(alloc));
    }
    pieces(alloc, rest)
}
