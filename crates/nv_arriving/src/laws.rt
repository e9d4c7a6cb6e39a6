// What holds of what comes and of what is done outside.
ghost use Rattle.std.specs.Prelude.{◌≡◌, ◌++◌, [], false, List};
ghost use Rattle.nv_calls.specs.Answer.{state_after};
ghost use Rattle.nv_calls.specs.Calls.{Entry};
ghost use Rattle.nv_calls.specs.Logs.{calls_of};
ghost use Rattle.nv_script.specs.Scripts.{Setup};
ghost use Rattle.nv_script.specs.Arrivals.{Arrival};
ghost use Rattle.nv_sockets.specs.Serving.{start_of_script};
ghost use Rattle.nv_arriving.specs.Arriving.{serve_next, first_stage, start_of_arrivals, Satisfied};
ghost use Rattle.nv_script.specs.Doings.{takings};
ghost use Rattle.nv_arriving.specs.Scripted.{start_from};
ghost use Rattle.nv_arriving.specs.Doings.{doings, doings_from};

/// What a front of a log does outside is a front of what the log does; where no call waited in vain, what comes later changes nothing
/// of it; and what comes is taken in once and in its order, up to what is left.
#[tactic(auto, using(crate::proofs::Doings::doings_front, crate::proofs::Doings::doings_more, crate::proofs::Doings::doings_taken))]
pub fn doings_go_on()
    ensures front { (setup : Setup) (arrivals : List Arrival) (front back : List Entry)
        → doings setup arrivals (front ++ back) ≡ doings setup arrivals front ++ doings_from (state_after serve_next (first_stage setup arrivals) (calls_of front)) (calls_of back) }
    ensures later { (setup : Setup) (arrivals more : List Arrival) (log : List Entry) → Satisfied (first_stage setup arrivals) (calls_of log)
        → doings setup (arrivals ++ more) log ≡ doings setup arrivals log }
    ensures taken { (setup : Setup) (arrivals : List Arrival) (log : List Entry)
        → takings (doings setup arrivals log) ++ (state_after serve_next (first_stage setup arrivals) (calls_of log)).rest ≡ arrivals }
{}

/// Where nothing comes, and the later calls aren't in the table, a kernel goes on as that of the script does.
#[tactic(auto, using(crate::proofs::Coming::same_start))]
pub fn nothing_comes()
    ensures { (setup : Setup) → setup.polls ≡ false → start_of_arrivals setup [] ≡ start_of_script setup }
{}

/// Over a script that lists nothing, where the later calls aren't in the table, a kernel goes on as that of connections and files alone does.
#[tactic(auto, using(crate::proofs::Listing::same_unlisted))]
pub fn nothing_listed()
    ensures { (setup : Setup) → setup.polls ≡ false → setup.arrivals ≡ [] → start_from setup ≡ start_of_script setup }
{}
