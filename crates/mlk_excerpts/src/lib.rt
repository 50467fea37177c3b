//! Lines of texts and their columns: a line with a caret below a column, as it is shown to people, and the token that begins at a
//! column.
#![tactic(auto)]

mod excerpt;
mod line;

pub use excerpt::{Excerpt, margin_of, push_excerpt, push_labelled};
pub use line::{TextLines, character_column, is_of_word, split_at_column, split_at_most, token_at};
