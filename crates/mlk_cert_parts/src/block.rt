// What a certificate says about an entry.

use crate::case::{Case, ExitCase};
use crate::names::NameSet;
use mlk_names::LockTerm;
use mlk_text::{LineNumber, List, Value};

/// What a caller may rely on, and what it must provide.
#[derive(Drop, PartialEq, Eq)]
pub struct Summary {
    /// The locks that a caller must hold, each as often as it is listed.
    pub need: List<LockTerm>,
    /// The cases in which the call may end.
    pub exits: List<ExitCase>,
    /// The names of the caller that the call may change.
    pub mods: List<NameSet>,
    /// The least rank that an untimed claim of the call may have, or `None` if the call makes no such claim.
    pub low: Option<u32>,
    /// Whether the call may release all locks at once.
    pub drops: bool,
}

/// A point of a routine, and the cases that are listed there.
#[derive(Drop, PartialEq, Eq)]
pub struct Point {
    /// The line, counted from 1.
    pub line: LineNumber,
    /// 0 for the start of the line, or the number of a FOR on the line.
    pub round: u32,
    pub cases: List<Case>,
}

/// The certificate of one entry.
#[derive(Drop, PartialEq, Eq)]
pub struct EntryCert {
    /// The entry's text, `LABEL^ROUTINE` or `^ROUTINE`.
    pub entry: Value,
    pub summary: Summary,
    pub points: List<Point>,
}
