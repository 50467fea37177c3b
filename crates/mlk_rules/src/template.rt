// The locks of rules.

use mlk_names::Root;
use mlk_text::{List, Value};

/// A subscript of a rule's lock.
#[derive(Clone, Drop)]
pub enum TemplatePart {
    /// one value
    Literal(Value),
    /// the subscript of a node at this index, from 0
    Place(usize),
}

/// The lock of a rule, for all nodes of the rule's pattern.
#[derive(Clone, Drop)]
pub struct Template {
    pub root: Root,
    pub parts: List<TemplatePart>,
}
