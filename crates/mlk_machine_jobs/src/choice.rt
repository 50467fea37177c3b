// Choices.

use mlk_text::Value;

/// What is chosen at a step where M, or this model of it, leaves a value or a truth value open.
#[derive(Drop)]
pub enum Choice {
    /// no choice
    None,
    Value(Value),
    Truth(bool),
}
