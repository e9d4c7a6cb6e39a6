// What holds of the kernel with sockets beside the one without them.
ghost use Rattle.std.specs.Prelude.{◌≡◌, List, Some};
ghost use Rattle.nv_calls.specs.Answer.{Answer, reply_of, state_after};
ghost use Rattle.nv_calls.specs.Calls.{Request, Response};
ghost use Rattle.nv_calls.specs.Constants.{constant_of};
ghost use Rattle.nv_calls.specs.Shapes.{IsShaped};
ghost use Rattle.nv_laws.specs.Tables.{AreSoundTables};
ghost use Rattle.nv_kernel.specs.Serving as kernel;
ghost use Rattle.nv_script.specs.Scripts.{Setup};
ghost use Rattle.nv_sockets.specs.Serving.{State, unless_bad, first_state, serve};
ghost use Rattle.nv_sockets.specs.Sockets.{Net};
ghost use Rattle.nv_laws.specs.Refused.{ChangesCountAlone};

/// After any calls of a run, where a socket answers, the kernel without sockets refuses the call and only counts it: no descriptor is that of a file
/// and of a socket, as the tables of files stay sound.
pub fn what_a_socket_answers_is_refused_without_sockets()
    ensures sound { (setup : Setup) (cs : List Request) → AreSoundTables (state_after serve (first_state setup) cs).own.files }
    ensures refused { (setup : Setup) (cs : List Request) (c : Request) (a : Answer Net) → unless_bad (state_after serve (first_state setup) cs).net c ≡ Some a
        → ChangesCountAlone (state_after serve (first_state setup) cs).own (kernel.serve (state_after serve (first_state setup) cs).own c) }
{}

/// A call of the form that a guest can make, whose reply doesn't depend on what a kernel holds, gets that reply in every state.
pub fn a_constant_reply_is_given_in_every_state()
    ensures { (s : State) (c : Request) (r : Response) → IsShaped c → constant_of c ≡ Some r → reply_of (serve s c) ≡ r }
{}
