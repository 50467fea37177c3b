//! How a case describes a job, and when a job is safe for a number of steps.
#![tactic(auto)]

mod law;

pub use law::{
    changed_is_described, described_is_covered, described_is_in_order, safe_at_each_moment,
};
