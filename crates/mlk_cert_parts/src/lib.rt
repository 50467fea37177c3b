//! The parts of certificates: cases, points and summaries, their limits and texts, and inclusion of cases.
#![tactic(auto)]

mod block;
mod case;
mod certificate;
mod inclusion;
pub mod limit;
mod names;
mod order;
mod read;
mod shared;
mod write;

pub use block::{EntryCert, Point, Summary};
pub use case::{Case, ExitCase, Test, copy_case};
pub use certificate::Certificate;
pub use inclusion::{are_same_lists, is_included};
pub use names::{NameSet, Own};
pub use order::place_of_term;
pub use read::{ascend_inside, ascend_inside_own};
pub use shared::Shared;
pub use write::{push_case, push_front, push_place};
