//! Replays whose events a person enters: each line is taken if the events with it can be followed, and an event is offered for
//! the next one.
#![tactic(auto)]

mod dialogue;
mod line;
mod offer;

pub use dialogue::{Entered, Reply, enter, resume};
pub use offer::prompt_for;
