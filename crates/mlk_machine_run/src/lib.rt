//! Jobs that run routines: how each begins, each of its steps, and the locks that they share.
#![tactic(auto)]

mod beginning;
mod call;
mod dispatch;
mod formals;
mod frame;
mod goto;
mod silent;
mod stepping;
mod system;

pub use beginning::{Beginning, begin};
pub use silent::silent_step;
pub use stepping::{claimed_names, step};
pub use system::{Turn, abort, join, step_job};
