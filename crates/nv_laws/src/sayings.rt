// What holds of what a run says.
ghost use Rattle.std.specs.Prelude.{◌≡◌, ℕ, List};
ghost use Rattle.nv_calls.specs.Calls.{Entry};
ghost use Rattle.nv_calls.specs.Logs.{output_of, connections_of};
ghost use Rattle.nv_script.specs.Scripts.{Setup};
ghost use Rattle.nv_script.specs.Arrivals.{Arrival};
ghost use Rattle.nv_script.specs.Doings.{sayings};
ghost use Rattle.nv_arriving.specs.Arriving.{start_of_arrivals};
ghost use Rattle.nv_arriving.specs.Doings.{doings};
ghost use Rattle.nv_live.specs.Live.{plain_text};
ghost use Rattle.nv_laws.specs.Sayings.{sent_text, written_at};

/// What the calls of a log say is what its report has: the bytes for the console, joined, are those on the console, and the bytes for each
/// connection those that were written to it.
#[tactic(auto, using(crate::proofs::Console::console_is_said, crate::proofs::Connections::connections_are_said))]
pub fn what_is_said_is_reported()
    ensures console { (setup : Setup) (arrivals : List Arrival) (log : List Entry) → plain_text (sayings (doings setup arrivals log)) ≡ output_of (start_of_arrivals setup arrivals) log }
    ensures connections { (setup : Setup) (arrivals : List Arrival) (log : List Entry) (j : ℕ) → sent_text j (sayings (doings setup arrivals log)) ≡ written_at (connections_of (start_of_arrivals setup arrivals) log) j }
{}
