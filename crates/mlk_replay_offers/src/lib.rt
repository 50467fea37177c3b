//! The only value that a job's next step can have: that of an operator or a function whose operands are known.
#![tactic(auto)]

mod function;
mod operator;
mod value;

pub use value::known_value;
