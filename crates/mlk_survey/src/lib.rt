//! What a team can learn about its routines before it has a rule file: what can't be read and why, calls of routines and lines
//! that are not given, the entries, the globals, the claims of locks, and places where a real system may differ from the
//! standard.
#![tactic(auto)]

mod entries;
mod facts;
mod given;
mod globals;
mod held;
mod locks;
mod misfits;
mod missing;
mod orders;
mod refused;
mod surveying;
mod tally;

pub use entries::Entry;
pub use facts::{Facts, InRoutines};
pub use given::{CalledLabel, Lack, ListLength};
pub use globals::{GlobalUse, Uses};
pub use locks::LockUse;
pub use misfits::MisfitCall;
pub use missing::MissingCall;
pub use orders::LockOrder;
pub use refused::{RefusalCount, RefusedRoutine};
pub use surveying::survey;
