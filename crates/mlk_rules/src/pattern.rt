// Patterns of nodes.

use mlk_names::Extent;
use mlk_text::{List, Name, Value};

/// An element of a pattern.
#[derive(Clone, Drop)]
pub enum Element {
    /// one value
    Literal(Value),
    /// any value
    Variable,
    /// `$J`: a value that must be known to be the job's own number
    Job,
}

/// A pattern of nodes of a global: the nodes with such subscripts, and everything below them if it is a tree.
#[derive(Clone, Drop)]
pub struct Pattern {
    /// The global's name, without its `^`.
    pub global: Name,
    pub elements: List<Element>,
    pub extent: Extent,
}
