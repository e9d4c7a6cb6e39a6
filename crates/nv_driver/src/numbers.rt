// The numbers of the options.
ghost use Rattle.std.specs.Prelude.{◌≡◌, ◌≤◌, ◌%◌, max, IfSome, option_map};
ghost use Rattle.clap.specs.Matches.{found_of};
ghost use Rattle.clap.specs.Walk.{rows_of};
ghost use Rattle.nv_driver.specs.Words.{number_between, number_within, in_pages, ring_of, memory_of, allowed, allowance_from, allowance_of, calls_asked, threads_asked, limits_of, patience_from, patience_of, index_of};
ghost use Rattle.nv_driver.specs.Seen.{limits_view, allowance_view};

use crate::limits::{Allowance, Limits};
use crate::matching::{is_set, text};
use clap::ArgMatches;

// Bytes of a page of a guest's memory.
const PAGE: u32 = 4096;

/// The number of a text, from the least to the most that it may be.
pub fn number_between(least: u32, most: u32, text: &str) -> Option<u32>
    ensures number { result ≡ number_between least most text.now }
    ensures range { IfSome result (λ number. (least ≤ number) × (number ≤ most)) }
{
    let number = nv_bytes::number(text.as_bytes())?;
    if least <= number && number <= most {
        Some(number)
    } else {
        None
    }
}

// The number of an option, from the least to the most that it may be, or the usual one.
fn number_within(usual: u32, least: u32, most: u32, text: Option<&str>) -> Option<u32>
    requires usual { (least ≤ usual) × (usual ≤ most) }
    ensures number { result ≡ number_within usual least most (option_map (λ text. text.now) text.entry) }
    ensures range { IfSome result (λ number. (least ≤ number) × (number ≤ most)) }
{
    match text {
        Some(text) => number_between(least, most, text),
        None => Some(usual),
    }
}

fn in_pages(bytes: u32) -> Option<u32>
    ensures pages { result ≡ in_pages bytes }
    ensures same { IfSome result (λ number. (number ≡ bytes) × (number % 4096 ≡ 0)) }
{
    if bytes % PAGE == 0 { Some(bytes) } else { None }
}

#[tactic(auto, unfolding(crate::specs::Words::ring_of))]
fn ring(defaults: Limits, matches: &ArgMatches<'_>) -> Option<u32>
    ensures number { result ≡ ring_of (limits_view defaults) (rows_of (found_of matches.now)) }
    ensures range { IfSome result (λ number. (2 ≤ number) × (number ≤ 1024)) }
{
    number_within(defaults.ring, 2, 1024, text(matches, "ring"))
}

/// Bytes of a guest's memory, in whole pages.
#[tactic(auto, unfolding(crate::specs::Words::memory_of))]
pub fn memory(defaults: Limits, matches: &ArgMatches<'_>) -> Option<u32>
    ensures number { result ≡ memory_of (limits_view defaults) (rows_of (found_of matches.now)) }
    ensures range { IfSome result (λ number. (131072 ≤ number) × (number ≤ 16777216) × (number % 4096 ≡ 0)) }
{
    let bytes = number_within(
        defaults.memory,
        131_072,
        16_777_216,
        text(matches, "memory"),
    )?;
    in_pages(bytes)
}

// So many instructions, as a text says.
fn allowed(text: &str, renews: bool) -> Option<Allowance>
    ensures { option_map allowance_view result ≡ allowed text.now renews }
{
    let budget = number_between(1, 1_000_000_000, text)?;
    Some(Allowance { budget, renews })
}

// By `--hang` or `--budget`, of which a line has one at most.
fn allowance_from(defaults: Limits, hang: Option<&str>, budget: Option<&str>) -> Option<Allowance>
    ensures { option_map allowance_view result ≡ allowance_from (limits_view defaults) (option_map (λ text. text.now) hang.entry) (option_map (λ text. text.now) budget.entry) }
{
    match (hang, budget) {
        (None, None) => Some(Allowance {
            budget: defaults.budget,
            renews: defaults.renews,
        }),
        (Some(hang), None) => allowed(hang, true),
        (None, Some(budget)) => allowed(budget, false),
        (Some(_), Some(_)) => None,
    }
}

/// Instructions of a version.
#[tactic(auto, unfolding(crate::specs::Words::allowance_of))]
pub fn instructions(defaults: Limits, matches: &ArgMatches<'_>) -> Option<Allowance>
    ensures { option_map allowance_view result ≡ allowance_of (limits_view defaults) (rows_of (found_of matches.now)) }
{
    allowance_from(defaults, text(matches, "hang"), text(matches, "budget"))
}

#[tactic(auto, unfolding(crate::specs::Words::calls_asked))]
fn calls(defaults: Limits, matches: &ArgMatches<'_>) -> Option<u32>
    ensures number { result ≡ calls_asked (limits_view defaults) (rows_of (found_of matches.now)) }
    ensures range { IfSome result (λ number. (1 ≤ number) × (number ≤ 500000000)) }
    ensures most { IfSome result (λ number. number ≤ max 131072 defaults.calls) }
{
    number_within(
        defaults.calls,
        1,
        defaults.calls.max(131_072),
        text(matches, "calls"),
    )
}

#[tactic(auto, unfolding(crate::specs::Words::threads_asked))]
fn threads(defaults: Limits, matches: &ArgMatches<'_>) -> Option<u32>
    ensures number { result ≡ threads_asked (limits_view defaults) (rows_of (found_of matches.now)) }
    ensures range { IfSome result (λ number. (1 ≤ number) × (number ≤ 8)) }
{
    number_within(defaults.threads, 1, 8, text(matches, "threads"))
}

/// The limits of a run or of a service: where an option isn't given, the default.
pub fn limits(defaults: Limits, matches: &ArgMatches<'_>) -> Option<Limits>
    ensures limits { option_map limits_view result ≡ limits_of (limits_view defaults) (rows_of (found_of matches.now)) }
    ensures calls { IfSome result (λ limits. limits.calls ≤ max 131072 defaults.calls) }
{
    let ring = ring(defaults, matches)?;
    let memory = memory(defaults, matches)?;
    let allowance = instructions(defaults, matches)?;
    let calls = calls(defaults, matches)?;
    let threads = threads(defaults, matches)?;
    Some(Limits {
        ring,
        memory,
        budget: allowance.budget,
        renews: allowance.renews,
        calls,
        threads,
    })
}

// Milliseconds of the longest patience, an hour.
const MOST_PATIENCE: u32 = 3_600_000;

// Only a service with lines of clients has a patience.
fn patience_from(clients: bool, text: Option<&str>) -> Option<Option<u32>>
    ensures { result ≡ patience_from clients (option_map (λ text. text.now) text.entry) }
{
    match (clients, text) {
        (_, None) => Some(None),
        (true, Some(text)) => Some(Some(number_between(1, MOST_PATIENCE, text)?)),
        (false, Some(_)) => None,
    }
}

/// Milliseconds for which the leader of a service may have waited for a follower before that one is let go, if there is a limit.
#[tactic(auto, unfolding(crate::specs::Words::patience_of))]
pub fn patience(matches: &ArgMatches<'_>) -> Option<Option<u32>>
    ensures { result ≡ patience_of (rows_of (found_of matches.now)) }
{
    patience_from(is_set(matches, "clients"), text(matches, "patience"))
}

/// The index that a version has in its rules.
#[tactic(auto, unfolding(crate::specs::Words::index_of))]
pub fn index(matches: &ArgMatches<'_>) -> Option<u32>
    ensures number { result ≡ index_of (rows_of (found_of matches.now)) }
    ensures range { IfSome result (λ number. number ≤ 7) }
{
    number_within(1, 0, 7, text(matches, "index"))
}
