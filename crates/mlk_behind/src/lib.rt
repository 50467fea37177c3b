//! What is behind the faults of a report: the texts of its routines are mended at these faults, so that a further walk finds those
//! behind them; and which faults of that walk are new.
#![tactic(auto)]

mod argument;
mod known;
mod lock;
mod patch;
mod reader;
mod repair;
mod round;
mod site;
mod subject;

pub use known::KnownFaults;
pub use patch::{Patch, mended_texts};
pub use round::{Round, next_round};
