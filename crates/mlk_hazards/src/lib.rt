//! Places in routines that a `yes` leaves open: what hazards there are, and those that the text of a routine shows.
#![tactic(auto)]

mod block;
mod finding;
mod hazard;
mod lines;
mod names;

pub use finding::{hazards_in, hazards_of};
pub use hazard::{Hazard, HazardAt};
