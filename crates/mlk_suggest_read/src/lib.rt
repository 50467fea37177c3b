//! Reads routines beyond parts that can't be read: a refused line is cut before the fault. The rest is used as evidence for a
//! suggestion of rules, and for nothing else.
#![tactic(auto)]

mod cut;
mod reading;

pub use reading::{PartlyRead, RoutineText, read_partly};
