// The texts of routines.

use mlk_dialect::Dialect;

/// A routine's file: in which dialect it is read, the stem of its name, and its bytes.
#[derive(Drop)]
pub struct Source<'a> {
    pub dialect: Dialect,
    pub stem: &'a [u8],
    pub text: Vec<u8>,
}
