//! Where a job is in the text of a routine: its line, and the column of the part of an expression that its next step computes.
#![tactic(auto)]

mod items;
mod place;
mod scan;
mod spot;
mod steps;

pub use place::{Place, place_of};
pub use spot::{Spot, spot_of};
pub use steps::Part;
