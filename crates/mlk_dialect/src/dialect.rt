// How much of M is read.

/// How much of M is read.
#[derive(Clone, Copy, Drop, PartialEq, Eq)]
pub enum Dialect {
    /// the subset of the standard
    Standard,
    /// words beyond it too
    Extended,
}
