//! The limits that the standard leaves to an implementation, as `mlock` sets them.

/// The maximum number of characters of a name.
pub const LONGEST_NAME: usize = 31;

/// The maximum number of subscripts of a name.
pub const MOST_SUBSCRIPTS: usize = 32;

/// The maximum number of digits of an exact literal before its point, and also after it.
pub const MOST_DIGITS: usize = 25;

/// The maximum number of digits of an exact number, from its first digit to its last nonzero digit.
pub const MOST_SIGNIFICANT: usize = 15;

/// The maximum number of bytes of a text that `_` joins.
pub const LONGEST_JOIN: usize = 255;

/// The highest rank of a family of locks.
pub const GREATEST_RANK: u32 = 999_999;
