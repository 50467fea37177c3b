//! One step of a job: the effect of its next task.
#![tactic(auto)]

mod ask;
mod assigning;
mod control;
mod expression;
mod line;
mod local;
mod locking;
mod merging;
mod quit;
mod replace;
mod scope;
mod touching;
mod truth;

pub use ask::{nothing_asked, or_refused};
pub use assigning::assign;
pub use control::{ask_test, select, skip_if};
pub use expression::{
    apply_binary, apply_unary, ask_value, drop_values, fetch, push_copy, push_job, push_test,
};
pub use line::{
    run_commands, run_first_round, run_forever, run_later_round, run_lines, run_next_value,
    run_parameters,
};
pub use local::{kill, store, store_any, store_last};
pub use locking::{claim, name_locks, release, release_all};
pub use merging::merge;
pub use quit::{end_frame, halt, quit_here, quit_with_value};
pub use replace::evaluate;
pub use scope::{begin_block, end_block, make_new};
pub use touching::{Reference, form_reference, touch};
pub use truth::{choose, go_if_true, run_if_true, set_test};
