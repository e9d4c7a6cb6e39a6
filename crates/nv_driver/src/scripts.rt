// The file that says what a run begins with.
ghost use Rattle.std.specs.Prelude.{◌≡◌, option_map};
ghost use Rattle.clap.specs.Matches.{found_of};
ghost use Rattle.clap.specs.Walk.{rows_of};
ghost use Rattle.nv_driver.specs.Words.{script_from, script_asked};
ghost use Rattle.nv_driver.specs.Seen.{script_view};

use crate::asked::ScriptFile;
use crate::matching::text;
use clap::ArgMatches;

// The file of the one option that is given.
fn script_from<'a>(script: Option<&'a str>, transcript: Option<&'a str>) -> Option<ScriptFile<'a>>
    ensures { option_map script_view result ≡ script_from (option_map (λ text. text.now) script.entry) (option_map (λ text. text.now) transcript.entry) }
{
    match (script, transcript) {
        (Some(name), None) => Some(ScriptFile {
            name,
            is_transcript: false,
        }),
        (None, Some(name)) => Some(ScriptFile {
            name,
            is_transcript: true,
        }),
        _ => None,
    }
}

/// The file of `--script` or of `--transcript`, of which a line has exactly one.
#[tactic(auto, unfolding(crate::specs::Words::script_asked))]
pub fn script<'a>(matches: &ArgMatches<'a>) -> Option<ScriptFile<'a>>
    ensures { option_map script_view result ≡ script_asked (rows_of (found_of matches.now)) }
{
    script_from(text(matches, "script"), text(matches, "transcript"))
}
