//! M's routines: the exact reader of their grammar.
#![tactic(auto)]

mod blank;
mod blocks;
mod command;
mod commands;
mod formals;
mod front;
mod label;
mod law;
mod line;
mod lines;
mod place;
mod reach;
mod read;
mod seen;
mod start;
mod stem;
mod tail;

pub use law::{one_cut, one_nesting, one_tree};
pub use mlk_syntax::{
    Action, Call, Command, Commands, Control, DoArgument, For, KillArgument, Line, LockArgument,
    MergeArgument, NewArgument, Parameter, Part, ReadArgument, Routine, SetArgument, Sign, Target,
    Variable, WriteArgument,
};
pub use read::read_routine;
