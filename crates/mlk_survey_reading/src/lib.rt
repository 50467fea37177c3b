//! Reads routines for a survey. One that is refused is read again behind the line of its fault, so that all lines that can't be
//! read are found, and not only the first.
#![tactic(auto)]

mod reading;
mod rest;

pub use reading::{Readings, read_all_lines};
