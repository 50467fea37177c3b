//! Phrases on the place of a fault: what was about to happen there, and what mends the fault.
#![tactic(auto)]

mod act;
mod help;

pub use act::{act_of, origin_act_of};
pub use help::{help_of, need_at_call_help};
