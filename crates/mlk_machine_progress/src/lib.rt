//! Progress of jobs. Each step finds the values that it uses; and a job has a next step unless it has ended, waits for a lock, or
//! meets something that ends a run: a local without a value, `$SELECT` without a true condition, a line with formals.
#![tactic(auto)]

mod law;

pub use law::{claims_are_granted, jobs_continue, uses_no_more, values_suffice};
