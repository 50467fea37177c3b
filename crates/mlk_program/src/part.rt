// Parts of routines.

/// A part of a routine: the lines that an entry at a given line runs.
#[derive(Clone, Copy, Drop)]
pub struct RoutinePart {
    /// the index of the routine, from 0
    pub routine: usize,
    /// how many lines follow the last that the entry runs
    pub past: usize,
    /// how many lines of the routine there are from the entry's line on
    pub left: usize,
}
