// A law that a transcript obeys.
ghost use Rattle.std.specs.Prelude.{◌≡◌, ℕ, true, List, ◌++◌};
ghost use Rattle.std.specs.List.{All, list_all};
ghost use Rattle.nv_script.specs.Arrivals.{is_arrival, BringsBytes};
ghost use Rattle.nv_script.specs.Doings.{Doing, takings, handings};
ghost use Rattle.nv_script.specs.Order.{most_clients, are_orderly};
ghost use Rattle.nv_live.specs.Transcript.{notes_on, continued_with};
ghost use Rattle.nv_script.specs.Scripts.{Setup, are_hands};
ghost use Rattle.nv_script.specs.Transcripts.{IsTranscript};

/// The text of a script, and after it the notes of what was done over it, is the script with the arrivals that were taken and the lengths at which the
/// leader gave up the lead.
#[tactic(auto, using(crate::proofs::Notes::noted))]
pub fn notes_are_scripts()
    ensures { (text : List ℕ) (setup : Setup) (done : List Doing) → IsTranscript text setup → list_all is_arrival (takings done) ≡ true → All BringsBytes (takings done)
        → are_orderly (most_clients true) (setup.arrivals ++ takings done) ≡ true → are_hands (setup.hands ++ handings done) ≡ true → IsTranscript (text ++ notes_on done) (continued_with done setup) }
{}
