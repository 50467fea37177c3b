//! Laws on the trees of routines that were read.
#![tactic(auto)]

mod law;

pub use law::{routines_spelled, timeouts_in_any_order, well_formed};
