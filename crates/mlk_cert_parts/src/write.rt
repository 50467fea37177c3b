//! The writers of blocks and their parts.

mod entry;
mod line;

pub use entry::{push_front, push_place};
pub use line::push_case;
