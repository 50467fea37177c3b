// What an entry asks of its callers.

use mlk_cert_parts::{NameSet, Summary};
use mlk_names::{KnownSym, LockTerm};
use mlk_text::{Code, Name};
use mlk_walk_exprs::{Fault, Mend};
use std::alloc::AllocError;

/// A part of an entry's summary that a caller has to meet.
#[derive(Drop, PartialEq, Eq)]
pub enum Ask {
    /// callers hold this lock, in the entry's own terms
    Need(LockTerm),
    /// the ranks of all that callers hold besides are below this one
    Low(u32),
    /// callers let this local change
    Change(Name),
    /// callers let all locks be released
    Drops,
}

/// How a fault is behind an ask.
#[derive(Clone, Copy, Drop, PartialEq, Eq)]
pub(crate) enum Cause {
    /// the line itself does it
    Line,
    /// the line calls an entry that may do it
    Call,
}

/// Whether `names` has the local `name`.
pub(crate) fn has_name(names: &NameSet, name: &Name) -> bool {
    match names {
        NameSet::Only(only) => *only == *name,
        NameSet::AllBut(others) => !others.as_slice().iter().any(|other| *other == *name),
    }
}

/// Whether `summary` says that a call may change the caller's local `name`.
pub fn may_change(summary: &Summary, name: &Name) -> bool {
    summary
        .mods
        .as_slice()
        .iter()
        .any(|names| has_name(names, name))
}

/// The need of `summary` that `term` is for a caller, as far as roots and numbers of subscripts show; `None` if no need has its
/// root.
pub fn need_like<'a>(summary: &'a Summary, term: &LockTerm) -> Option<&'a LockTerm> {
    let needs = summary.need.as_slice();
    let count = term.subs.as_slice().len();
    let is_alike = |need: &&LockTerm| need.root == term.root && need.subs.as_slice().len() == count;
    let alike = needs.iter().find(is_alike);
    alike.or_else(|| needs.iter().find(|need| need.root == term.root))
}

fn has_local(term: &LockTerm) -> bool {
    term.subs
        .as_slice()
        .iter()
        .any(|symbol| matches!(symbol, KnownSym::Local(_)))
}

/// The first need of `summary` that a local names: a call with an unknown actual can't meet it.
pub fn named_need(summary: &Summary) -> Option<&LockTerm> {
    summary.need.as_slice().iter().find(|need| has_local(need))
}

// How a fault for want of locks is behind the need of `term`.
fn need_cause(term: &LockTerm, code: Code, mend: &Mend) -> Option<Cause> {
    let Mend::Locks(missing) = mend else {
        return None;
    };
    if !missing.iter().any(|lock| lock.root == term.root) {
        return None;
    }
    match code {
        Code::Uncovered | Code::NotHeld => Some(Cause::Line),
        Code::NeedMissing => Some(Cause::Call),
        _ => None,
    }
}

// How a fault is behind the least rank `low`.
fn low_cause(low: u32, mend: &Mend) -> Option<Cause> {
    match mend {
        Mend::Rank(rank) if *rank <= low => Some(Cause::Line),
        Mend::Callee(Some(rank), _) if *rank <= low => Some(Cause::Call),
        _ => None,
    }
}

fn drops_cause(mend: &Mend) -> Option<Cause> {
    match mend {
        Mend::Drops => Some(Cause::Line),
        Mend::Callee(_, true) => Some(Cause::Call),
        _ => None,
    }
}

// How a fault is behind the change of `name`, which a call may do too.
fn change_cause(name: &Name, mend: &Mend) -> Option<Cause> {
    match mend {
        Mend::Changes(names) if names.iter().any(|names| has_name(names, name)) => {
            Some(Cause::Line)
        }
        _ => None,
    }
}

impl Ask {
    /// An equal ask.
    pub(crate) fn copy(&self) -> Result<Ask, AllocError> {
        match self {
            Ask::Need(term) => Ok(Ask::Need(term.clone()?)),
            Ask::Low(low) => Ok(Ask::Low(*low)),
            Ask::Change(name) => Ok(Ask::Change(name.copy()?)),
            Ask::Drops => Ok(Ask::Drops),
        }
    }

    /// How a fault that is found if the entry does not ask this is behind it; `None` if it is not.
    pub(crate) fn cause(&self, fault: &Fault, mend: &Mend) -> Option<Cause> {
        match (self, fault.code) {
            (Ask::Need(term), code) => need_cause(term, code, mend),
            (Ask::Low(low), Code::SummaryShort) => low_cause(*low, mend),
            (Ask::Drops, Code::SummaryShort) => drops_cause(mend),
            (Ask::Change(name), Code::SummaryShort) => change_cause(name, mend),
            _ => None,
        }
    }

    /// What the callee with `summary` is asked, if a call of it is behind this ask and `mend` is that call's; `None` if its
    /// summary has no such part.
    pub(crate) fn of_callee(
        &self,
        summary: &Summary,
        mend: &Mend,
    ) -> Result<Option<Ask>, AllocError> {
        match self {
            Ask::Need(_) => need_of_callee(summary, mend),
            Ask::Low(_) => Ok(summary.low.map(|low| Ask::Low(low))),
            Ask::Drops => Ok(if summary.drops {
                Some(Ask::Drops)
            } else {
                None
            }),
            Ask::Change(name) if may_change(summary, name) => Ok(Some(self.copy()?)),
            Ask::Change(_) => Ok(None),
        }
    }
}

fn need_of_callee(summary: &Summary, mend: &Mend) -> Result<Option<Ask>, AllocError> {
    let Mend::Locks(missing) = mend else {
        return Ok(None);
    };
    let Some(term) = missing.first() else {
        return Ok(None);
    };
    match need_like(summary, term) {
        Some(need) => Ok(Some(Ask::Need(need.clone()?))),
        None => Ok(None),
    }
}
