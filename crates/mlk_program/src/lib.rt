//! Programs: routines in which each call has a line that accepts its actuals; the calls in lines, and the names that NEW creates.
#![tactic(auto)]

mod call;
mod directory;
mod entry;
mod expr;
mod fault;
mod found;
mod frames;
mod law;
mod linking;
mod news;
mod part;
mod program;
mod shared;
mod table;

pub use call::CallSite;
pub use entry::EntryId;
pub use found::{calls_of, in_commands};
pub use law::{calls_fit, calls_share, entries_have_lines, entries_named, texts_name};
pub use linking::link;
pub use news::{NewNames, new_names};
pub use program::Program;
