// Texts in quotes, and comments.
ghost use Rattle.std.specs.Prelude.{◌≡◌, ◌≤◌, false, length, option_map, IfOk};
ghost use Rattle.nv_asm.specs.declared.strings.Where.TheVariants.{Outside};
ghost use Rattle.nv_asm.specs.Strings.{escape, mark, quoted, string, next, comment_place};

use std::alloc::{AllocError, Global};

/// Where a byte of a line stands.
#[derive(Clone, Copy, Debug, PartialEq, Eq)]
pub enum Where {
    /// Outside quotes.
    Outside,
    /// Inside quotes.
    Inside,
    /// Inside quotes, after a backslash.
    Escaped,
}

/// What a byte of a text in quotes is.
#[derive(Clone, Copy, Debug, PartialEq, Eq)]
pub enum Mark {
    /// It stands for this byte.
    Stands(u8),
    /// A backslash, which the next byte belongs to.
    Escapes,
    /// The closing quote.
    Ends,
    /// No such escape.
    Wrong,
}

// Where the next byte stands, if this one begins no comment.
fn next(place: Where, byte: u8) -> Option<Where>
    ensures { result ≡ next place byte }
{
    match place {
        Where::Outside => match byte {
            b'#' => None,
            b'"' => Some(Where::Inside),
            _ => Some(Where::Outside),
        },
        Where::Inside => match byte {
            b'\\' => Some(Where::Escaped),
            b'"' => Some(Where::Outside),
            _ => Some(Where::Inside),
        },
        Where::Escaped => Some(Where::Inside),
    }
}

/// How many bytes of a line stand before its comment, which `#` begins outside quotes.
pub fn comment_place(line: &[u8]) -> usize
    ensures place { result ≡ comment_place Outside line.now }
    ensures inside { result ≤ length line.now }
{
    let mut place = Where::Outside;
    for (i, byte) in line.iter().enumerate() {
        match next(place, *byte) {
            None => return i,
            Some(later) => place = later,
        }
    }
    line.len()
}

// What a byte after a backslash stands for.
fn escape(byte: u8) -> Option<u8>
    ensures { result ≡ escape byte }
{
    match byte {
        b'n' => Some(b'\n'),
        b't' => Some(b'\t'),
        b'0' => Some(0),
        b'\\' => Some(b'\\'),
        b'"' => Some(b'"'),
        _ => None,
    }
}

fn mark_of(escaped: bool, byte: u8) -> Mark
    ensures { result ≡ mark escaped byte }
{
    if escaped {
        return match escape(byte) {
            Some(byte) => Mark::Stands(byte),
            None => Mark::Wrong,
        };
    }
    match byte {
        b'\\' => Mark::Escapes,
        b'"' => Mark::Ends,
        _ => Mark::Stands(byte),
    }
}

// The bytes after an opening quote, up to the closing one at the text's end.
fn quoted(alloc: Global, text: &[u8]) -> Result<Option<Vec<u8>>, AllocError>
    ensures { IfOk result (λ found. option_map (λ bytes. bytes.items) found ≡ quoted false text.now) }
{
    let mut bytes = Vec::new(alloc);
    let mut escaped = false;
    for (i, byte) in text.iter().enumerate() {
        match mark_of(escaped, *byte) {
            Mark::Stands(byte) => {
                bytes.push(byte)?;
                escaped = false;
            }
            Mark::Escapes => escaped = true,
            Mark::Ends => {
                if i + 1 == text.len() {
                    return Ok(Some(bytes));
                }
                return Ok(None);
            }
            Mark::Wrong => return Ok(None),
        }
    }
    Ok(None)
}

/// The bytes of a text in quotes.
pub fn string(alloc: Global, text: &[u8]) -> Result<Option<Vec<u8>>, AllocError>
    ensures { IfOk result (λ found. option_map (λ bytes. bytes.items) found ≡ string text.now) }
{
    match text {
        [b'"', rest @ ..] => quoted(alloc, rest),
        _ => Ok(None),
    }
}
