// Which lengths to hand over at a script can have besides its own.
ghost use Rattle.std.specs.Prelude.{◌≡◌};
ghost use Rattle.nv_script.specs.Entry.{is_hand};
ghost use Rattle.nv_script.specs.HandLines.{can_plan};
ghost use Rattle.nv_script.specs.Scripts.{has_hand};

use crate::draft::MOST_HANDS;
use crate::entry::MOST_HAND;

// Whether a script can name this length.
fn is_hand(length: usize) -> bool
    ensures { result ≡ is_hand length }
{
    length >= 1 && length <= MOST_HAND as usize
}

// Whether this length is one of them.
fn has_hand(length: usize, hands: &[u32]) -> bool
    ensures { result ≡ has_hand length hands.now }
{
    hands.iter().any(|hand| *hand as usize == length)
}

/// Whether a script with these lengths to hand over at can have this one as well.
pub fn can_plan(length: usize, hands: &[u32]) -> bool
    ensures { result ≡ can_plan length hands.now }
{
    is_hand(length) && hands.len() < MOST_HANDS && !has_hand(length, hands)
}
