// What is shown of a version that follows a trace.
ghost use Rattle.std.specs.Prelude.{◌≡◌, ℕ, ◌≤◌, ◌+◌, None, Some, IfSome, option_map};
ghost use Rattle.std.specs.Option.{ForSome};
ghost use Rattle.clap.specs.Matches.{found_of};
ghost use Rattle.clap.specs.Walk.{rows_of};
ghost use Rattle.nv_driver.specs.Words.{point_from, point_of, range_of, dump_from, dump_of, look_of};
ghost use Rattle.nv_driver.specs.Seen.{point_view, look_view};

use crate::asked::{Look, Point};
use crate::asked_trail::trail;
use crate::matching::text;
use crate::numbers::number_between;
use clap::ArgMatches;

// The most instructions after which a version is shown.
const MOST_COUNT: u32 = 1_000_000_000;

// The most bytes of memory that are shown.
const MOST_LENGTH: u32 = 4096;

// The point of the one option that is given.
fn point_from(stamp: Option<&str>, call: Option<&str>, count: Option<&str>) -> Option<Point>
    ensures point { option_map point_view result ≡ point_from (option_map (λ text. text.now) stamp.entry) (option_map (λ text. text.now) call.entry) (option_map (λ text. text.now) count.entry) }
    ensures fits { IfSome result (λ point. (n : ℕ) → point ≡ Point.Count n → (1 ≤ n) × (n ≤ 1000000000)) }
{
    match (stamp, call, count) {
        (Some(stamp), None, None) => Some(Point::Stamp(nv_bytes::number(stamp.as_bytes())?)),
        (None, Some(call), None) => Some(Point::Call(nv_bytes::number(call.as_bytes())?)),
        (None, None, Some(count)) => Some(Point::Count(number_between(1, MOST_COUNT, count)?)),
        _ => None,
    }
}

#[tactic(auto, unfolding(crate::specs::Words::point_of))]
fn point(matches: &ArgMatches<'_>) -> Option<Point>
    ensures point { option_map point_view result ≡ point_of (rows_of (found_of matches.now)) }
    ensures fits { IfSome result (λ point. (n : ℕ) → point ≡ Point.Count n → (1 ≤ n) × (n ≤ 1000000000)) }
{
    point_from(
        text(matches, "stamp"),
        text(matches, "call"),
        text(matches, "count"),
    )
}

// An address and a length.
#[tactic(auto, unfolding(crate::specs::Words::range_of))]
fn range(address: &str, length: &str) -> Option<(u32, u32)>
    ensures range { result ≡ range_of address.now length.now }
    ensures fits { IfSome result (λ range. (1 ≤ range.1) × (range.1 ≤ 4096) × (range.0 + range.1 ≤ 4294967295)) }
{
    let address = nv_bytes::number(address.as_bytes())?;
    let length = number_between(1, MOST_LENGTH, length)?;
    if length <= u32::MAX - address {
        Some((address, length))
    } else {
        None
    }
}

// The bytes that are shown, by both options or neither.
fn dump_from(address: Option<&str>, length: Option<&str>) -> Option<Option<(u32, u32)>>
    ensures dump { result ≡ dump_from (option_map (λ text. text.now) address.entry) (option_map (λ text. text.now) length.entry) }
    ensures fits { IfSome result (λ dump. ForSome dump (λ range. (1 ≤ range.1) × (range.1 ≤ 4096) × (range.0 + range.1 ≤ 4294967295))) }
{
    match (address, length) {
        (Some(address), Some(length)) => Some(Some(range(address, length)?)),
        (None, None) => Some(None),
        _ => None,
    }
}

#[tactic(auto, unfolding(crate::specs::Words::dump_of))]
fn dump(matches: &ArgMatches<'_>) -> Option<Option<(u32, u32)>>
    ensures dump { result ≡ dump_of (rows_of (found_of matches.now)) }
    ensures fits { IfSome result (λ dump. ForSome dump (λ range. (1 ≤ range.1) × (range.1 ≤ 4096) × (range.0 + range.1 ≤ 4294967295))) }
{
    dump_from(text(matches, "dump"), text(matches, "length"))
}

/// What is shown, by the options of the version, the point and the bytes.
#[tactic(auto, unfolding(crate::specs::Words::look_of))]
pub fn look<'a>(matches: &ArgMatches<'a>) -> Option<Look<'a>>
    ensures { option_map look_view result ≡ look_of (rows_of (found_of matches.now)) }
{
    let trail = trail(matches)?;
    let point = point(matches)?;
    let dump = dump(matches)?;
    Some(Look { trail, point, dump })
}
