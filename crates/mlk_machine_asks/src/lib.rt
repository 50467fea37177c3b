//! What the next step of a job asks for: nothing, a value, a truth value, or whether it was in time.
#![tactic(auto)]

mod asking;

pub use asking::{Question, question_of};
