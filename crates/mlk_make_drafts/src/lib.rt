//! What the maker of certificates knows of an entry so far: its summary, and the cases at its points. No proof depends on it.
#![tactic(auto)]

mod block;
mod copy;
mod draft;
mod hand;
mod lists;
mod order;
mod summary;

pub use copy::{copy_cases, copy_summed};
pub use draft::{Draft, round_number};
pub use hand::{for_at, rounds_in};
pub use lists::{At, Listing, Lists};
pub use summary::{add_exit, add_mods, drop_all, lower, widen};
