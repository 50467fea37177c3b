//! Where what an entry asks of its callers comes from: the touch, acquisition, release or change behind a summary, and the calls on
//! the way to it. What a routine's text does with a lock near a place.
#![tactic(auto)]

mod ask;
mod grounds;
mod nearby;
mod origin;
mod routine;
mod weakened;

pub use ask::{Ask, may_change, named_need, need_like};
pub use grounds::Grounds;
pub use mlk_walk::{Checks, Row};
pub use nearby::{LockEvent, LockEvents, events_near, has_root};
pub use origin::{Origin, Trail, origins_of, trail_of};
pub use routine::{Mark, RoutineFacts};
