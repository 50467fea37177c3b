// Places in routines, by borrowed names.

use mlk_text::{Column, LineNumber};

/// A place in a routine. Places are ordered by the routine's name, then by line and column.
#[derive(Clone, Copy, Drop, PartialEq, Eq, PartialOrd, Ord)]
pub struct Position<'a> {
    pub routine: &'a [u8],
    pub line: LineNumber,
    pub column: Column,
}
