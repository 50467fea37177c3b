//! The jobs of a system as text, and below the line of each job the line of M where it is, with what its next step asks for.
#![tactic(auto)]

mod explained;
mod note;

pub use explained::{ShownRoutine, explained_text};
