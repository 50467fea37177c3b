// References to nodes of globals.

use crate::symbol::Sym;
use mlk_text::{Name, Subscripts};

/// How far a reference reaches.
#[derive(Clone, Copy, PartialEq, Eq)]
pub enum Extent {
    /// one node
    Node,
    /// a node and everything below it
    Tree,
}

/// What a reference does.
#[derive(Clone, Copy, PartialEq, Eq)]
pub enum Access {
    Reads,
    Writes,
}

/// The subscripts of a reference, usually up to four.
pub type ReferenceSubs = Subscripts<Sym, 4>;

/// A reference to a global, whose subscripts are symbols.
#[derive(Clone, Drop, PartialEq, Eq)]
pub struct Reference {
    /// The global's name, without its `^`.
    pub root: Name,
    pub subs: ReferenceSubs,
    pub extent: Extent,
    pub access: Access,
}
