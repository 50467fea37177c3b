// Where in a line the walk is.

use mlk_calls::Scope;
use mlk_cert_parts::Case;
use mlk_text::{Column, LineNumber, List};
use std::alloc::Global;

/// A block of lines below a line: the number of its first line, and the cases in which it may end.
#[derive(Drop)]
pub struct Block {
    pub first: LineNumber,
    pub ends: List<Case>,
}

/// A place in a line: the scope of the walk, the line's number, counted from 1, its level and its block, and the column of
/// the running command's word.
#[derive(Clone, Copy, Drop)]
pub struct Spot<'a> {
    pub alloc: Global,
    pub scope: &'a Scope<'a>,
    pub line: LineNumber,
    pub level: u32,
    pub block: Option<&'a Block>,
    pub word: Column,
}
