//! Routines as steps: the touches, claims, releases, changes and calls of each line, in the order in which they are done. Rule
//! suggestions are derived from these. Nothing that is proved of a `yes` depends on this crate.
#![tactic(auto)]

mod action;
mod branch;
mod directory;
mod draft;
mod expr;
mod lines;
mod lock_name;
mod program;
mod step;
mod word;

pub use lines::program_of;
pub use lock_name::{LockName, LockRoot, Symbol};
pub use program::{Origin, Program, Unit, UnitId};
pub use step::{Call, CallKind, Claim, Condition, Reference, Rounds, Step};
pub use word::{Word, Words};
