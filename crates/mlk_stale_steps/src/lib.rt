//! Routines as steps of a machine with a stack of values, for the search for stale writes. Nothing that is proved of a `yes`
//! depends on this crate.
#![tactic(auto)]

mod command;
mod expr;
mod lines;
mod step;
mod writer;

pub use lines::code_of;
pub use step::{
    Amount, Call, CallKind, Change, Code, Condition, Jump, LineMarks, Mark, Rounds, StackStep,
    Step, Use,
};
