//! The meaning of rules: which locks a reference to a global needs, and in which order locks are claimed.
#![tactic(auto)]

mod check;
mod cover;
mod family;
mod groups;
mod held;
mod lacking;
mod law;
mod lent;
mod lies;
mod meet;
mod pattern;
mod rank;
mod rules;
mod sound;
mod template;

pub use check::{check_reference, covered_lent};
pub use cover::{Cover, ReadPolicy};
pub use family::Family;
pub use lacking::templates;
pub use law::{
    computed_answers, covered_apart, lock_of_node, marked_alike, one_rank, share_pattern,
    surely_lies,
};
pub use lent::Lent;
pub use meet::may_meet;
pub use pattern::{Element, Pattern};
pub use rank::rank_of;
pub use rules::{RuleLists, Rules, entries};
pub use sound::first_meeting;
pub use template::{Template, TemplatePart};
