// Routines: lines, each with the block below it.

use crate::command::Commands;
use crate::rare::Rare;
use mlk_text::{Column, LineNumber, List, Name};

/// A line, with the block of deeper lines that follows it.
#[derive(Drop)]
#[cycle(lines)]
pub struct Line {
    pub number: LineNumber,
    /// the column after its last byte
    pub end: Column,
    /// one more than the number of its periods
    pub level: usize,
    pub label: Rare<Name>,
    /// absent without a formal list; `()` is an empty one
    pub formals: Rare<List<Name>>,
    pub commands: Commands,
    pub block: Vec<Line>,
}

/// A routine.
#[derive(Drop)]
pub struct Routine {
    pub name: Name,
    pub lines: Vec<Line>,
}
