//! The effect of one argument of any command on the states of a walk.
#![tactic(auto)]

mod assign;
mod calling;
mod condition;
mod kill;
mod locks;
mod names;
mod news;
mod order;
mod reading;
mod variable;

pub use assign::set_argument;
pub use calling::{do_argument, job_argument};
pub use condition::if_argument;
pub use kill::{kill_all_but, kill_argument};
pub use locks::{Release, lock_argument};
pub use news::{new_all_but, new_argument};
pub use order::put_own;
pub use reading::{merge_argument, read_argument, write_argument};
pub use variable::{
    Change, capture_variable, change_all, change_local, change_locals, count_of, subscripts_of,
};
