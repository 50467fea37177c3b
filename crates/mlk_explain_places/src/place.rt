// What is known where a fault was found.

use crate::names::{is_named_by, is_written, name_at, root_of};
use crate::reason::{Reason, reason_at};
use mlk_cert_parts::{Summary, Test};
use mlk_explain_origins::{Checks, Grounds, Mark, RoutineFacts, Row, has_root, may_change};
use mlk_names::{KnownSym, LockName, LockTerm, prefix};
use mlk_program::EntryId;
use mlk_rules::{Cover, ReadPolicy, rank_of};
use mlk_survey_trees::Usage;
use mlk_syntax::{Expr, Subscript, Variable};
use mlk_text::Root;
use mlk_walk_exprs::{Fault, Mend, Note};

/// Which locks are meant.
#[derive(Clone, Copy, Drop)]
pub enum LockSet {
    /// those that are held
    Held,
    /// those that are held, and that the entry acquired
    Acquired,
    /// those that are held by callers, as the entry's summary requires
    Required,
    /// those that are missing
    Missing,
    /// those that are held, and are named by the local at the column
    Named,
    /// those that are held, and are named by a local that the callee may change
    Changed,
    /// those that are held, and do not have a lower rank than the lock that is acquired at the column
    Blocking,
    /// those that are held, and have the rank of the lock that is acquired at the column
    SameRank,
    /// those that are held, and are above a missing one
    Above,
    /// those that are held, and are below a missing one
    Below,
    /// those that are held, and differ from a missing one in a subscript
    Alike,
    /// those that are held, but not as often as they are needed
    Again,
}

/// A fault with its line of M, what is at its column, and the note of the walk.
#[derive(Drop)]
pub struct FaultPlace<'a> {
    pub grounds: &'a Grounds<'a>,
    pub checks: &'a Checks<'a>,
    /// those of its routine
    pub facts: &'a RoutineFacts<'a>,
    /// the entry whose walk found the fault
    pub entry: EntryId,
    /// where it is in the entry's routine
    pub fault: Fault,
    pub note: &'a Note,
    /// the bytes of its line of M
    pub line: &'a [u8],
    /// the name at the column, as `name_at` cuts it
    pub name: &'a [u8],
    /// why a lock that is missing is not held
    pub reason: Reason,
}

fn subscripts_of(name: &Variable) -> &[Subscript] {
    match &name.name {
        Expr::Global(_, _, subscripts) | Expr::Local(_, subscripts) => subscripts.as_slice(),
        _ => &[],
    }
}

// Whether a lock's name is that of a family or below it, as far as its text shows.
fn is_in_family(name: &Variable, family: &LockName) -> bool {
    let subscripts = subscripts_of(name);
    let values = family.subs.as_slice();
    has_root(name, &family.root)
        && values.len() <= subscripts.len()
        && subscripts.iter().zip(values).all(|(
            subscript,
            value,
        )| matches!(&subscript.value, Expr::Lit(text) if *text == *value))
}

/// The first lock that `note` names as missing.
pub fn missing_in(note: &Note) -> Option<&LockTerm> {
    match &note.mend {
        Mend::Locks(terms) => terms.first(),
        _ => None,
    }
}

// What was known of `$TEST`, and which locks were held; none where the fault is of no case.
fn situation_in(note: &Note) -> Option<(Test, &[LockTerm])> {
    if let Some(situation) = &note.situation {
        return Some((situation.test, situation.held.as_slice()));
    }
    match &note.mend {
        Mend::Listed(_, _, case) => Some((case.test, case.held.as_slice())),
        Mend::Exit(exit) => Some((exit.test, exit.held.as_slice())),
        _ => None,
    }
}

// How often a lock is among others.
fn count_of(terms: &[LockTerm], term: &LockTerm) -> usize {
    terms.iter().filter(|other| **other == *term).count()
}

// Whether the callee with this summary may change a local that names the lock.
fn may_rename(summary: &Summary, term: &LockTerm) -> bool {
    term.subs.as_slice().iter().any(
        |symbol| matches!(symbol, KnownSym::Local(name) if may_change(summary, name)),
    )
}

// Why the first lock that is missing is not held.
fn reason_of(checks: &Checks<'_>, facts: &RoutineFacts<'_>, row: &Row, note: &Note) -> Reason {
    let Some(term) = missing_in(note) else {
        return Reason::Never;
    };
    let test = match situation_in(note) {
        Some((test, _)) => test,
        None => Test::Any,
    };
    reason_at(checks, facts, row.entry, &term.root, row.fault, test)
}

impl<'a> FaultPlace<'a> {
    /// The place of a row's fault, in the routine of `facts`, with the note of the walk.
    pub fn of(
        grounds: &'a Grounds<'a>,
        checks: &'a Checks<'a>,
        facts: &'a RoutineFacts<'a>,
        row: &Row,
        note: &'a Note,
    ) -> FaultPlace<'a> {
        let line = facts.line(row.fault.line);
        FaultPlace {
            grounds,
            checks,
            facts,
            entry: row.entry,
            fault: row.fault,
            note,
            line,
            name: name_at(line, row.fault.column),
            reason: reason_of(checks, facts, row, note),
        }
    }

    /// What the tree of the routine has at the column: a use of a global, a call, or a name of a LOCK.
    pub fn mark(&self) -> Option<Mark<'a>> {
        self.facts.mark(self.fault.line, self.fault.column)
    }

    /// What was known of `$TEST`, and which locks were held; `None` if the fault is of no case.
    pub fn situation(&self) -> Option<(Test, &'a [LockTerm])> {
        situation_in(self.note)
    }

    /// The locks that were held.
    pub fn held(&self) -> &'a [LockTerm] {
        match self.situation() {
            Some((_, held)) => held,
            None => &[],
        }
    }

    /// The locks among which are those of `set`.
    pub fn locks(&self, set: LockSet) -> &'a [LockTerm] {
        match (set, &self.note.mend) {
            (LockSet::Missing, Mend::Locks(terms)) => terms.as_slice(),
            (LockSet::Missing, _) => &[],
            _ => self.held(),
        }
    }

    // Whether the lock at this index of those held is one that callers hold: each need is met by one of them.
    fn is_required(&self, index: usize, term: &LockTerm) -> bool {
        let Some(summary) = self.checks.entries.summary(self.entry) else {
            return false;
        };
        let held = self.held();
        let (earlier, _) = held.split_at(index.min(held.len()));
        count_of(earlier, term) < count_of(summary.need.as_slice(), term)
    }

    // Whether the rank of a held lock is not lower than that of what is acquired at the column.
    fn is_blocking(&self, term: &LockTerm) -> bool {
        match (rank_of(self.grounds.rules, term), self.limit()) {
            (Some(rank), Some(limit)) => rank >= limit,
            _ => true,
        }
    }

    // Whether a held lock has the rank of what is acquired at the column.
    fn is_of_limit(&self, term: &LockTerm) -> bool {
        match (rank_of(self.grounds.rules, term), self.limit()) {
            (Some(rank), Some(limit)) => rank == limit,
            _ => false,
        }
    }

    // How a held lock is to the first that is missing.
    fn is_beside_missing(&self, set: LockSet, term: &LockTerm) -> bool {
        let Some(missing) = missing_in(self.note) else {
            return false;
        };
        let (is_above, is_below) = (prefix(term, missing), prefix(missing, term));
        match set {
            LockSet::Above => is_above && !is_below,
            LockSet::Below => is_below && !is_above,
            LockSet::Again => is_above && is_below,
            _ => term.root == missing.root && !is_above && !is_below,
        }
    }

    // Whether the callee may change a local that names the lock.
    fn is_renamed(&self, term: &LockTerm) -> bool {
        match self.callee_summary() {
            Some(summary) => may_rename(summary, term),
            None => false,
        }
    }

    /// Whether `term`, which is at `index` of `locks(set)`, is in `set`.
    pub fn is_in(&self, set: LockSet, index: usize, term: &LockTerm) -> bool {
        match set {
            LockSet::Held | LockSet::Missing => true,
            LockSet::Acquired => !self.is_required(index, term),
            LockSet::Required => self.is_required(index, term),
            LockSet::Named => is_named_by(term, self.name),
            LockSet::Changed => self.is_renamed(term),
            LockSet::Blocking => self.is_blocking(term),
            LockSet::SameRank => self.is_of_limit(term),
            LockSet::Above | LockSet::Below | LockSet::Alike | LockSet::Again => {
                self.is_beside_missing(set, term)
            }
        }
    }

    /// The first lock of `set`.
    pub fn first_lock(&self, set: LockSet) -> Option<&'a LockTerm> {
        for (index, term) in self.locks(set).iter().enumerate() {
            if self.is_in(set, index, term) {
                return Some(term);
            }
        }
        None
    }

    /// Whether there is a lock of `set`.
    pub fn has_locks(&self, set: LockSet) -> bool {
        self.first_lock(set).is_some()
    }

    /// Whether a touch at the column may need a lock of `cover`: a read does not if the cover frees reads.
    pub fn may_need(&self, cover: &Cover) -> bool {
        match cover.reads {
            ReadPolicy::Locked => true,
            ReadPolicy::Free => !matches!(self.mark(), Some(Mark::Global(Usage::Read))),
        }
    }

    /// Whether a lock that is missing has fewer subscripts than a rule's lock has: the reference may meet several nodes that the
    /// rule covers by different locks.
    pub fn is_wide(&self) -> bool {
        let Some(missing) = missing_in(self.note) else {
            return false;
        };
        let count = missing.subs.as_slice().len();
        let covers = self.grounds.rules.lists().covers.as_slice();
        covers.iter().any(|cover| {
            cover.lock.root == missing.root
                && cover.lock.parts.as_slice().len() > count
                && self.may_need(cover)
        })
    }

    /// The first lock that callers hold, and that does not have a lower rank than what is acquired at the column.
    pub fn blocking_need(&self) -> Option<&'a LockTerm> {
        for (index, term) in self.held().iter().enumerate() {
            if self.is_required(index, term) && self.is_blocking(term) {
                return Some(term);
            }
        }
        None
    }

    /// Whether a held lock has this root, and does not have a lower rank than what is acquired at the column.
    pub fn is_blocked_by(&self, root: &Root) -> bool {
        for term in self.held() {
            if term.root == *root && self.is_blocking(term) {
                return true;
            }
        }
        false
    }

    /// Whether the name at the column has this root.
    pub fn names_root(&self, root: &Root) -> bool {
        is_written(root, root_of(self.name))
    }

    /// Whether lock rules have the root of the name at the column, with constants that this name does not have.
    pub fn is_ranked_by_constants(&self) -> bool {
        let families = self.grounds.rules.families();
        families
            .iter()
            .any(|family| self.names_root(&family.name.root))
    }

    /// Whether a call is at the column.
    pub fn is_call(&self) -> bool {
        matches!(self.mark(), Some(Mark::Call(_)))
    }

    /// The entry that is called at the column, or at which a job begins.
    pub fn target(&self) -> Option<EntryId> {
        match self.mark() {
            Some(Mark::Call(callee) | Mark::Job(callee)) => {
                self.grounds.program.target(self.entry.routine(), callee)
            }
            _ => None,
        }
    }

    /// The summary of the entry that is called at the column.
    pub fn callee_summary(&self) -> Option<&'a Summary> {
        self.checks.entries.summary(self.target()?)
    }

    /// The rank of what is acquired at the column, or the least rank that a callee may acquire. No held lock may have this rank
    /// or a higher one. `None` if the family of what is acquired depends on a value that is not written there.
    pub fn limit(&self) -> Option<u32> {
        match self.mark() {
            Some(Mark::Call(_)) => self.callee_summary()?.low,
            Some(Mark::Lock(name)) => {
                let mut families = self.grounds.rules.families().iter();
                let family = families.find(|family| is_in_family(name, &family.name))?;
                Some(family.rank)
            }
            _ => None,
        }
    }

    /// Whether the fault is one of the entry as a whole, reported at the first column of its line.
    pub fn is_of_entry(&self) -> bool {
        self.fault.column.number() == 1
    }
}
