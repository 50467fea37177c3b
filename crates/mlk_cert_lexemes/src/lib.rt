//! Lexemes and lists of certificates and files of events: their readers and writers.
#![tactic(auto)]

mod lexeme;
mod list;
mod spelled;
mod term;
mod text;
mod written;

pub use lexeme::{constant, entry, front_of, is_below, is_upto, number, positive_number, word_of};
pub use list::{Item, are_both, item_list, items};
pub use text::WrittenText;
pub use written::{Written, push_flat, push_joined, push_listed, push_more};
