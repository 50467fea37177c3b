//! Places where faults were found: the line of M, the name and the locks there, why a lock is missing, and phrases that are made
//! of these.
#![tactic(auto)]

mod line;
mod names;
mod phrase;
mod place;
mod reason;

pub use line::{push_line, push_source};
pub use mlk_explain_origins::Mark;
pub use names::{function_before, push_front, root_of};
pub use phrase::{Part, Phrase, phrase_text, push_entry};
pub use place::{FaultPlace, LockSet, missing_in};
pub use reason::Reason;
