//! Known faults: the file that lists them, and what a report has beyond it.
#![tactic(auto)]

mod baseline;
mod fault_key;
mod labels;
mod text;

pub use baseline::{Baseline, BaselineFault, Comparison, GoneFault, read_baseline};
pub use fault_key::{FaultKey, fault_keys};
pub use text::baseline_text;
