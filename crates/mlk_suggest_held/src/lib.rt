//! Held locks, by numbers: lock names at the places that a walk reaches, in callers and in callees. Nothing that is proved of a
//! `yes` depends on this crate.
#![tactic(auto)]

mod held;
mod renaming;

pub use held::{Changes, Held, Holding, Lock, Tables};
pub use renaming::{Renaming, are_alike, is_above};
