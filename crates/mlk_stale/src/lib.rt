//! Writes of values that may be out of date: the value comes from a read of the written node that was made before the lock that
//! covers the node was last acquired. Nothing that is proved of a `yes` depends on this crate.
#![tactic(auto)]

mod answer;
mod calls;
mod finding;
mod judge;
mod locks;
mod path;
mod stale;
mod touch;
mod tracked;
mod value;
mod walk;

pub use finding::stale_writes;
pub use judge::is_stale;
pub use stale::{Gap, ReadAt, StaleWrite};
