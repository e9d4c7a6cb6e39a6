// How long files may be.
ghost use Rattle.std.specs.Prelude.{◌≡◌};
ghost use Rattle.nv_driver.specs.Seen.{script_view};
ghost use Rattle.nv_driver.specs.Found.{script_limit};

use crate::asked::ScriptFile;

/// The most bytes of a file.
pub const FILE_LIMIT: u32 = 4_194_304;

/// The most bytes of a trace.
pub const TRACE_LIMIT: u32 = 67_108_864;

// The most bytes of a transcript: each line of a live run's input is a line of it.
const TRANSCRIPT_LIMIT: u32 = 1_073_741_824;

/// The most bytes of the file that says what a run begins with.
#[tactic(auto, unfolding(crate::specs::Found::script_limit))]
pub fn script_limit(script: ScriptFile<'_>) -> u32
    ensures { result ≡ script_limit (script_view script.entry) }
{
    if script.is_transcript {
        TRANSCRIPT_LIMIT
    } else {
        FILE_LIMIT
    }
}
