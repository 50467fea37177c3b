//! The mentions in the trees of routines that a survey collects, and where they are.
#![tactic(auto)]

mod command;
mod expr;
mod line;
mod lock_name;
mod mention;
mod position;

pub use line::{mentions_in, mentions_of};
pub use lock_name::{Likeness, LockRoot, likeness_of};
pub use mention::{Mention, MentionAt, Touch, Usage};
pub use position::Position;
