//! The meaning of codes: a page for each, with its meaning, why it matters, what corrects it and an example. The documents have
//! the same sentences, which `tools/code_pages.py` compares.
#![tactic(auto)]

mod certificates;
mod events;
mod expressions;
mod faults;
mod linking;
mod named;
mod page;
mod routines;
mod rule_files;
mod runs;

pub use named::codes_named;
pub use page::{CODES, Page, page_of};
