//! The plain text of a routine that has words beyond the subset: each is replaced by one that is read as any value, byte for byte
//! at the same place.
#![tactic(auto)]

mod dialect;
mod plain;
mod tables;
mod word;

pub use dialect::Dialect;
pub use plain::{PlainText, plain_text};
pub use tables::{is_function, is_text_name, is_variable, is_zdata};
