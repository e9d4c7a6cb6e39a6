//! Scripts: what a run begins with, what comes from outside while it goes on, one arrival after another, and where its leaders hand over.
//! Types: `Script`, `ScriptFault`, `ScriptCause`; `Arrival`, `ArrivalCause`, `Order`, `Said`; the trait `Outside`. Functions: `read`,
//! `can_plan`; `read_arrival` and `put_line` (an arrival's line each way), `piece` (plain input cut into arrivals).
//! Proved: `read` gives what a script says, or its first faulty line with the first cause; a script that is accepted keeps
//! to the stated limits. An arrival's line is read and written exactly, and what was written is read back; `Order` takes what may
//! come after what came; plain input is cut at each newline and after 2,000 bytes. Laws: a script of form 5 and the lines of what
//! comes after it are a script, and so are it and the line of one more length to hand over at that it can have; nothing comes in
//! one of forms 1 to 3, and form 5 alone has its calls.
#![tactic(auto)]

mod arrival;
mod draft;
mod entry;
mod fault;
mod form;
mod kind;
mod laws;
mod line;
mod order;
mod outside;
mod pieces;
mod plain_input;
mod planning;
mod reading;
mod script;
mod word;
mod writing;

pub use arrival::{Arrival, ArrivalCause, MOST_ARRIVAL};
pub use fault::{ScriptCause, ScriptFault};
pub use laws::{
    hand_lines_are_planned, other_forms_are_of_the_fourth, other_forms_begin_transcripts,
    other_forms_have_no_arrivals, the_fifth_form_polls, transcripts_are_scripts,
};
pub use line::read_arrival;
pub use order::Order;
pub use outside::{Outside, Said};
pub use pieces::piece;
pub use plain_input::plain_input_comes;
pub use planning::can_plan;
pub use reading::read;
pub use script::Script;
pub use word::{is_timeless_word, is_word};
pub use writing::put_line;
