//! Locks that jobs share: which each job holds, which job waits for which, and the laws of all runs.
#![tactic(auto)]

mod held;
mod holders;
mod key;
mod law;
mod refusal;
mod ring;
mod sharing;
mod table;

pub use held::Held;
pub use law::{
    claim_adds_one, excludes_held, names_tested, release_takes_one, rings_are_found,
    waiting_is_tested,
};
pub use refusal::Refusal;
pub use ring::has_ring;
pub use sharing::{Seen, are_free, is_free, is_numbered, place_of, waits_for};
pub use table::LockTable;
