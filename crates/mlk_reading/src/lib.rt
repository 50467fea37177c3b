//! Reads the texts of many routines side by side.
#![tactic(auto)]

mod readers;
mod reading;
mod source;

pub use reading::{read_each, read_routines};
pub use source::Source;
