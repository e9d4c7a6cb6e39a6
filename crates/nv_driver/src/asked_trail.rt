// What a version is to follow.
ghost use Rattle.std.specs.Prelude.{◌≡◌, option_map};
ghost use Rattle.clap.specs.Matches.{found_of};
ghost use Rattle.clap.specs.Walk.{rows_of};
ghost use Rattle.nv_driver.specs.Words.{trail_of};
ghost use Rattle.nv_driver.specs.Seen.{trail_view};

use crate::asked::Trail;
use crate::limits::Limits;
use crate::matching::text;
use crate::numbers::{index, instructions, memory};
use crate::scripts::script;
use clap::ArgMatches;

/// The version, its trace and its limits.
#[tactic(auto, unfolding(crate::specs::Words::trail_of))]
pub fn trail<'a>(matches: &ArgMatches<'a>) -> Option<Trail<'a>>
    ensures { option_map trail_view result ≡ trail_of (rows_of (found_of matches.now)) }
{
    let script = script(matches)?;
    let rules = text(matches, "rules");
    let trace = text(matches, "trace")?;
    let version = text(matches, "version")?;
    let usual = Limits::usual();
    let memory = memory(usual, matches)?;
    let allowance = instructions(usual, matches)?;
    let index = index(matches)?;
    Some(Trail {
        script,
        rules,
        trace,
        version,
        memory,
        budget: allowance.budget,
        renews: allowance.renews,
        index,
    })
}
