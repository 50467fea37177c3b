//! Shared by all printers: texts as lists of pieces, and JSON objects as tables of fields.
#![tactic(auto)]

mod escape;
mod field;
mod piece;

pub use escape::escape_bytes;
pub use field::{Field, member, object};
pub use piece::{Piece, push_all, text_of};
