// Names that may change, and names that are own.

use mlk_text::{List, Name};

/// Names of locals: one, or all but some.
#[derive(Clone, Drop, PartialEq, Eq)]
pub enum NameSet {
    /// This name.
    Only(Name),
    /// Every name except these.
    AllBut(List<Name>),
}

/// Names that were created at a level of the routine, and still exist.
#[derive(Clone, Drop, PartialEq, Eq)]
pub struct Own {
    /// The level of the lines that created them, from 1.
    pub level: u32,
    pub names: NameSet,
}
