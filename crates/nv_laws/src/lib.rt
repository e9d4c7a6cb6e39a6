//! Laws of calls and of runs: what the definitions say together of files, of sockets, of what is said and read, and of a run's end.
//! Functions: one a law, whose contract is the law; and `counted_turn`, a worker's turn as the law of runs counts it.
//! Proved: the tables of files stay sound; what is made takes no number in use; a close frees just what nothing else holds; a
//! call on a descriptor changes no other open file, file or pipe; what a socket answers, the kernel without sockets refuses
//! with an error; a constant reply is given in every state; what calls say outside is what a report has; a source in memory is read in turn. No state of a room
//! is stuck, no seat gets on for ever, and a run ends where turns come again and again; each turn of a worker is one of
//! those. That they come is the host's part: nothing here says that a thread runs.
#![tactic(auto)]

mod files;
mod progress;
mod reads;
mod sayings;
mod sockets;
mod turns;

pub use files::{
    calls_keep_the_tables_sound, calls_stay_within_their_open_file,
    closes_free_what_nothing_else_holds, what_is_made_was_free,
};
pub use progress::{
    each_step_is_counted, each_window_leaves_less, every_run_ends, no_room_is_stuck,
    no_seat_gets_on_for_ever, some_turn_does_not_wait, the_room_allows_these_steps,
    who_can_get_on_does_not_wait, who_can_get_on_still_can, who_is_waited_for_can_get_on,
};
pub use reads::reads_in_turn;
pub use sayings::what_is_said_is_reported;
pub use sockets::{
    a_constant_reply_is_given_in_every_state, what_a_socket_answers_is_refused_without_sockets,
};
pub use turns::counted_turn;
