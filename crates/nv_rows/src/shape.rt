// What stands in a row, before what it says is read.
use crate::entry::Field;
use crate::fault::RowFault;

/// Refuses fields of which a part would be passed over: one that stands a second time, one with words or content that say nothing, and
/// one without the content that it is for.
pub fn check(fields: &[Field]) -> Result<(), RowFault> {
    for (place, field) in fields.iter().enumerate() {
        check_field(fields.get(..place).unwrap_or(&[]), field)?;
    }
    Ok(())
}

fn check_field(before: &[Field], field: &Field) -> Result<(), RowFault> {
    if before.iter().any(|one| says_again(one, field)) {
        return Err(RowFault::Twice);
    }
    if is_bare(field.word) && !field.rest.is_empty() {
        return Err(RowFault::Line);
    }
    if wants_content(field.word) && field.content.is_empty() {
        return Err(RowFault::Empty);
    }
    Ok(())
}

// Whether the second says again what the first did: the same file's name, or a field that stands once.
fn says_again(one: &Field, other: &Field) -> bool {
    match (is_file(one.word), is_file(other.word)) {
        (true, true) => one.rest == other.rest,
        (false, false) => stands_once(one.word) && one.word == other.word,
        _ => false,
    }
}

fn is_file(word: &[u8]) -> bool {
    matches!(word, b"file" | b"code" | b"asm" | b"rules")
}

fn stands_once(word: &[u8]) -> bool {
    !matches!(word, b"set" | b"cut" | b"in")
}

// Whether no words follow it on its line.
fn is_bare(word: &[u8]) -> bool {
    matches!(
        word,
        b"out" | b"begins" | b"ends" | b"in" | b"said" | b"noted" | b"once" | b"each-write-fails"
    )
}

// Whether it says nothing without content. An `out` without any says that nothing is written, and an `in` that a read gives nothing.
fn wants_content(word: &[u8]) -> bool {
    matches!(word, b"begins" | b"ends" | b"said" | b"noted")
}
