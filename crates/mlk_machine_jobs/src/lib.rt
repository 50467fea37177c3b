//! Jobs that run routines of M: the effect of each step on a job, and the laws of all runs of many jobs.
#![tactic(auto)]

mod asking;
mod binding;
mod cell;
mod change;
mod choice;
mod job;
mod kill;
mod law;
mod locking;
mod pending;
mod stack;
mod task;
mod touch;

pub use asking::{asked_truth, asked_value, not_asked};
pub use binding::{Binder, Cell, Names, look_up};
pub use cell::{CellTable, add_generation, forget};
pub use choice::Choice;
pub use job::Job;
pub use law::{
    changes_one, ended_stays, held_apart, leaving_out, numbers_distinct, one_run_of_many,
    rings_are_found, settles_by_steps,
};
pub use locking::{count_all, count_in, cut_after, lock_names};
pub use pending::{Back, Frame, Pending};
pub use stack::Stack;
pub use task::{
    Calling, LineTask, LocalTask, LockTask, Rest, ScopeTask, Task, TestTask, ValueTask,
};
pub use touch::Touch;
