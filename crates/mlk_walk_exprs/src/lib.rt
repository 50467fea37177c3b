//! The effect of the parts of commands on the states of a walk: references, calls, expressions and conditions.
#![tactic(auto)]

mod call;
mod condition;
mod expression;
mod reference;
mod spot;
mod transfer;
mod walk;

pub use call::CallTransfer;
pub use condition::{Sides, join_all, split_by, where_it_holds};
pub use expression::{
    capture, capture_actuals, capture_subs, capture_unknown, evaluate, value, value_if, values,
};
pub use reference::{ReadLast, Touch, TouchLast, Use, covered_or, last_of, use_of};
pub use spot::{Block, Spot};
pub use transfer::{Transfer, apply_to_states, forget_captured};
pub use walk::{Fault, Faults, Found, Mend, Note, Quit, Situation, Walk, put, put_all, too_many};
