//! A board of tasks that workers share, and the report that they make together on the texts of a program.
#![tactic(auto)]

mod board;
mod error;
mod gate;
mod inputs;
mod rendering;
mod report;
mod shared;
mod tasks;
mod verification;
mod worker;

pub use board::{Board, Event, Outcome, Slot, Ticket};
pub use error::CheckError;
pub use gate::Gate;
pub use inputs::Inputs;
pub use rendering::render;
pub use report::{MOST_WORKERS, PoolFault, report_by};
pub use shared::SharedBoard;
pub use verification::{ProgramReport, verify, verify_program};
pub use worker::work;
