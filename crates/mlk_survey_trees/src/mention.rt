// The mentions that a survey collects.

use crate::position::Position;
use mlk_names::Extent;
use mlk_syntax::{Callee, LockArgument, Subscript};
use mlk_text::{Column, LineNumber, Name};

/// How a command uses a global.
#[derive(Clone, Copy, Drop)]
pub enum Usage {
    Read,
    Write,
    Kill,
}

/// A use of nodes of a global.
#[derive(Clone, Copy, Drop)]
pub struct Touch<'a> {
    /// the column of its `^`
    pub column: Column,
    /// the global's name, without its `^`
    pub global: &'a Name,
    /// the subscripts of the node, or of the node on top of a tree: `$ORDER` touches the tree above its argument, `$QUERY` all of
    /// the global
    pub subscripts: &'a [Subscript],
    pub extent: Extent,
    pub usage: Usage,
}

/// Something in the text of a routine that a survey collects.
#[derive(Clone, Copy, Drop)]
pub enum Mention<'a> {
    /// a routine or a label begins
    Begin,
    Touch(Touch<'a>),
    /// a call, and the column where it begins
    Call(Column, &'a Callee),
    /// a call that begins a job, with the column where it begins; it is mentioned as a call too
    Job(Column),
    /// an extrinsic call that an implementation may skip, with the column where it begins
    SkippedCall(Column),
    /// an argument of LOCK
    Lock(&'a LockArgument),
    /// a LOCK without arguments
    Unlock,
}

impl<'a> Touch<'a> {
    /// The read of a node.
    pub(crate) fn read(column: Column, global: &'a Name, subscripts: &'a [Subscript]) -> Touch<'a> {
        Touch {
            column,
            global,
            subscripts,
            extent: Extent::Node,
            usage: Usage::Read,
        }
    }
}

/// A mention, with its line.
#[derive(Clone, Copy, Drop)]
pub struct MentionAt<'a> {
    pub routine: &'a [u8],
    pub line: LineNumber,
    pub mention: Mention<'a>,
}

impl<'a> MentionAt<'a> {
    /// The place at `column` of the mention's line.
    pub fn position_at(&self, column: Column) -> Position<'a> {
        Position {
            routine: self.routine,
            line: self.line,
            column,
        }
    }
}
