//! Changes of names, claims, releases and calls, on one state of a walk.
#![tactic(auto)]

mod call;
mod changing;
mod claim;
mod mend;
mod order;

pub use call::{Calling, at_call, at_job};
pub use changing::{change, change_in_place, change_unchecked, is_allowed, short_names};
pub use claim::{claim_unchecked, may_take, release_all, release_one};
pub use mend::{call_changes, callee_summary, missing_need};
pub use mlk_walk_state::{
    Entries, RefusedState, Scope, State, copy_case, is_among, is_exit, is_listed, is_own,
    is_same_own, mention_any, symbol_of, truth_of,
};
pub use order::in_order;
