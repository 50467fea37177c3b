//! Events that a person enters, and the routines as their lines are shown.
#![tactic(auto)]

mod dialogue;
mod shown;

pub use dialogue::{ask_for_events, begun_events, with_events, written_path};
pub use shown::shown_routines;
