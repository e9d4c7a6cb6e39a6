//! The report of a run as text and as JSON: console, log, and how each version ended.
//! Functions: `write`, `json`, `put_event`, `put_fate`, `put_hex`; specs/Report and Json have the texts.
//! Proved: `write` writes just the report's text, without memory; `json` gives just the text of its JSON form.
#![tactic(auto)]

mod events;
mod form;
mod items;
mod numbers;
mod values;
mod versions;
mod whole;

pub use events::put_event;
pub use form::json;
pub use numbers::put_hex;
pub use versions::put_fate;
pub use whole::write;
