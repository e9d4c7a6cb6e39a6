// What holds of the texts of scripts.
ghost use Rattle.std.specs.Prelude.{◌≡◌, [], ◌++◌, ◌∷◌, ◌==◌, not, ℕ, List, Ok, true, false, bytes_eq, codes};
ghost use Rattle.std.specs.List.{All, list_all};
ghost use Rattle.nv_bytes.specs.Lines.{lines};
ghost use Rattle.nv_script.specs.Arrivals.{Arrival, is_arrival, BringsBytes};
ghost use Rattle.nv_script.specs.Order.{most_clients, are_orderly};
ghost use Rattle.nv_script.specs.Scripts.{Setup, script_of};
ghost use Rattle.nv_script.specs.HandLines.{hand_line, can_plan, planned_too};
ghost use Rattle.nv_script.specs.Transcripts.{lines_of, continued_by, IsTranscript, says_what_comes};

/// The text of a script, and after it the lines of what may come after that script's own arrivals, is the script with these arrivals as well.
#[tactic(auto, using(crate::proofs::Transcripts::transcript))]
pub fn transcripts_are_scripts()
    ensures { (text : List ℕ) (setup : Setup) (arrivals : List Arrival) → IsTranscript text setup → list_all is_arrival arrivals ≡ true → All BringsBytes arrivals → are_orderly (most_clients true) (setup.arrivals ++ arrivals) ≡ true → IsTranscript (text ++ lines_of arrivals) (continued_by arrivals setup) }
{}

/// The text of a script of the fifth form, and after it the line of one more planned length, is the script with that length as well.
#[tactic(auto, using(crate::proofs::HandLines::planned))]
pub fn hand_lines_are_planned()
    ensures { (text : List ℕ) (setup : Setup) (n : ℕ) → IsTranscript text setup → can_plan n setup.hands ≡ true → IsTranscript (text ++ (hand_line n ++ codes "\n")) (planned_too n setup) }
{}

/// A script of any form of which no line says what comes is, with `varan-script 5` as its first line, the same script with the calls of the fifth form.
#[tactic(auto, using(crate::proofs::OtherForms::other_form))]
pub fn other_forms_begin_transcripts()
    ensures { (first body : List ℕ) (setup : Setup) → All (λ b. (b == 10) ≡ false) first → list_all (λ line. not (says_what_comes line)) (lines body) ≡ true → script_of (first ++ 10 ∷ body) ≡ Ok setup → script_of (codes "varan-script 5\n" ++ body) ≡ Ok (record setup { polls = true }) }
{}

/// With `varan-script 4` as its first line it is the same script without these calls.
#[tactic(auto, using(crate::proofs::OtherForms::fourth_form))]
pub fn other_forms_are_of_the_fourth()
    ensures { (first body : List ℕ) (setup : Setup) → All (λ b. (b == 10) ≡ false) first → list_all (λ line. not (says_what_comes line)) (lines body) ≡ true → script_of (first ++ 10 ∷ body) ≡ Ok setup → script_of (codes "varan-script 4\n" ++ body) ≡ Ok (record setup { polls = false }) }
{}

/// A script has the calls that wait for several things at once exactly where its first line is `varan-script 5`.
#[tactic(auto, using(crate::proofs::Polls::polls))]
pub fn the_fifth_form_polls()
    ensures { (text first : List ℕ) (rest : List (List ℕ)) (setup : Setup) → lines text ≡ first ∷ rest → script_of text ≡ Ok setup → setup.polls ≡ bytes_eq first (codes "varan-script 5") }
{}

/// Nothing comes in a script whose first line is neither `varan-script 4` nor `varan-script 5`.
#[tactic(auto, using(crate::proofs::NoArrivals::no_arrivals))]
pub fn other_forms_have_no_arrivals()
    ensures { (text first : List ℕ) (rest : List (List ℕ)) (setup : Setup) → lines text ≡ first ∷ rest → bytes_eq first (codes "varan-script 4") ≡ false → bytes_eq first (codes "varan-script 5") ≡ false → script_of text ≡ Ok setup → setup.arrivals ≡ [] }
{}
