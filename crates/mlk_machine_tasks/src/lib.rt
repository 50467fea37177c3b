//! The tasks into which a job's tasks are expanded: of commands and their arguments, lines, FOR and LOCK.
#![tactic(auto)]

mod action;
mod argument;
mod command;
mod line;
mod part;
mod round;
mod target;

pub use action::action_parts;
pub use line::{formals_in, has_formals, line_parts, line_rest, next_command};
pub use round::{first_round, later_round, parameter_parts};
pub use target::by_sign;
