// The lines of a text.
ghost use Rattle.std.specs.Prelude.{◌≡◌, ◌<◌, ◌∷◌, length};
ghost use Rattle.nv_bytes.specs.Lines.{lines, line_number};

use crate::fields::cut;
use std::marker::Model;

/// The lines of a text, each with how many are before it.
#[derive(Drop)]
pub struct Lines<'a> {
    rest: &'a [u8],
    before: usize,
}

impl<'a> Model for Lines<'a> {
    ghost use Rattle.std.specs.Prelude.{◌+◌, ◌<◌, ◌^◌, length};
    ghost use Rattle.nv_bytes.specs.Lines.{LinesLeft, lines};

    ghost Value = { LinesLeft };

    ghost view = { λ l. record { before = l.before; left = lines l.rest.now } };

    ghost invariant = { λ l. l.before + length l.rest.now < 2 ^ 64 };
}

impl<'a> Lines<'a> {
    pub fn of(text: &'a [u8]) -> Lines<'a>
        ensures { result ≡ record { before = 0; left = lines text.now } }
    {
        Lines {
            rest: text,
            before: 0,
        }
    }
}

impl<'a> Iterator for Lines<'a> {
    ghost use Rattle.std.specs.Iterator.{item_count};
    ghost use Rattle.nv_bytes.specs.Lines.{GivesLine};

    type Item = (usize, &'a [u8]);

    ghost next_gives = { GivesLine };

    ghost remaining = { item_count (λ l. l.left) };

    fn next(&mut self) -> Option<(usize, &'a [u8])> {
        if self.rest.is_empty() {
            return None;
        }
        let (line, rest) = split_line(self.rest);
        let before = self.before;
        self.rest = rest;
        self.before += 1;
        Some((before, line))
    }
}

// The first line of a text, and the rest after its newline.
fn split_line(text: &[u8]) -> (&[u8], &[u8])
    requires { 0 < length text.now }
    ensures lines { lines text.now ≡ result.0.now ∷ lines result.1.now }
    ensures shorter { length result.1.now < length text.now }
{
    let (line, rest) = cut(text, b'\n');
    match rest {
        Some(rest) => (line, rest),
        None => (line, &[]),
    }
}

/// The number of a line that so many are before, counted from 1.
pub fn line_number(before: usize) -> u32
    ensures { result ≡ line_number before }
{
    u32::try_from(before).unwrap_or(u32::MAX).saturating_add(1)
}
