//! The tasks into which a task that evaluates an expression is expanded, and what the tasks of commands share with them.
#![tactic(auto)]

mod adding;
mod evaluate;
mod expr;
mod variable;

pub use adding::add;
pub use evaluate::{each_actual, parts_of};
pub use expr::{count_subscripts, each_argument, each_subscript};
pub use variable::{bare_name, subscripts_of};
