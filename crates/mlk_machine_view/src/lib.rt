//! Views of jobs: which two clash, which waits for which, what each does next, and a whole system as text.
#![tactic(auto)]

mod asking;
mod call;
mod clash_law;
mod clashing;
mod dispatch;
mod holding;
mod known;
mod law;
mod printed;
mod region;
mod shown;
mod spelling;
mod system;
mod touch;
mod wait;

pub use clash_law::{clash_is_tested, overlap_is_tested};
pub use clashing::{clashes, is_clash};
pub use dispatch::state;
pub use law::held_is_sorted;
pub use shown::State;
pub use system::system_text;
pub use wait::waiting_pairs;
