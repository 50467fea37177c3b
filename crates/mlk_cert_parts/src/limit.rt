//! The limits of certificates, as `mlock` sets them.

/// The maximum number of bytes of a text: 64 MiB.
pub const LONGEST_TEXT: usize = 67_108_864;

/// The maximum number of a case; no text has room for as many.
pub const GREATEST_CASE: u32 = 67_108_864;

/// The maximum number of terms in a list.
pub const MOST_TERMS: usize = 16;

/// The maximum number of cases at a point.
pub const MOST_CASES: usize = 16;

/// The maximum number of exits of an entry.
pub const MOST_EXITS: usize = 16;

/// The maximum number of items of own names.
pub const MOST_OWN: usize = 64;

/// The maximum number of kept names.
pub const MOST_KEPT: usize = 64;

/// The maximum number of items of names that may change.
pub const MOST_MODS: usize = 1024;

/// The maximum number of a line.
pub const GREATEST_LINE: u32 = 65_535;

/// The maximum number of a FOR on its line.
pub const GREATEST_ROUND: u32 = 255;

/// The maximum level of a line.
pub const DEEPEST_LEVEL: u32 = 15;
