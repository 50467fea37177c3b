// What a report leaves out, and rules that change nothing.

ghost use Rattle.std.specs.Prelude.{◌≡◌};
ghost use Rattle.mlk_coverage.specs.Words.{gap_word};

use crate::coverage::Coverage;
use crate::labels::UnreachedLabel;
use crate::rule_use::{RuleId, RuleKind};
use mlk_text::push_sparing;
use std::alloc::{AllocError, Global};

/// What a report leaves out, or how a rule changes nothing.
#[derive(Clone, Copy, Drop, PartialEq, Eq)]
pub enum GapKind {
    /// no entry is declared, so no line is checked
    NoEntry,
    /// a label that touches a global or claims a lock, and that no declared entry reaches
    UnreachedLabel,
    /// a rule on a global that no reached line touches so
    UnmetRule,
    /// a cover with a lock that no reached line claims
    UnclaimedLock,
}

/// All kinds of gaps.
pub const GAP_KINDS: [GapKind; 4] = [
    GapKind::NoEntry,
    GapKind::UnreachedLabel,
    GapKind::UnmetRule,
    GapKind::UnclaimedLock,
];

/// Where a gap is.
#[derive(Clone, Copy, Drop)]
pub enum GapPlace<'a> {
    /// in the entries of the rule file as a whole
    Entries,
    Label(UnreachedLabel<'a>),
    Rule(RuleId),
}

/// A gap, and where it is.
#[derive(Clone, Copy, Drop)]
pub struct Gap<'a> {
    pub kind: GapKind,
    pub place: GapPlace<'a>,
}

impl GapKind {
    /// The word that is printed.
    pub fn word(self) -> &'static str
        ensures { result.now ≡ gap_word self }
    {
        match self {
            GapKind::NoEntry => "NoEntry",
            GapKind::UnreachedLabel => "UnreachedLabel",
            GapKind::UnmetRule => "UnmetRule",
            GapKind::UnclaimedLock => "UnclaimedLock",
        }
    }

    /// What it is.
    pub fn meaning(self) -> &'static str {
        match self {
            GapKind::NoEntry => "the rules declare no entry, so no line is checked",
            GapKind::UnreachedLabel => {
                "a label that touches a global or claims a lock is not reached from a declared entry"
            }
            GapKind::UnmetRule => "no line that is checked touches what the rule is about",
            GapKind::UnclaimedLock => "no line that is checked claims the lock of the cover",
        }
    }

    /// What can be done about it.
    pub fn advice(self) -> &'static str {
        match self {
            GapKind::NoEntry => {
                "declare the labels at which jobs begin: `mlock suggest` lists candidates"
            }
            GapKind::UnreachedLabel => "declare it, if jobs begin there or callers are not given",
            GapKind::UnmetRule => "compare the pattern with the code: it may be misspelled",
            GapKind::UnclaimedLock => {
                "compare the lock with the claims in the code: it may be misspelled"
            }
        }
    }
}

/// The gaps of `coverage`: no entry, labels in order, rules, locks.
pub fn gaps_of<'a>(alloc: Global, coverage: &Coverage<'a>) -> Result<Vec<Gap<'a>>, AllocError> {
    let mut gaps = Vec::new(alloc);
    if coverage.entries == 0 {
        let place = GapPlace::Entries;
        let kind = GapKind::NoEntry;
        push_sparing(&mut gaps, Gap { kind, place })?;
    }
    for label in coverage.unreached.iter().copied() {
        let place = GapPlace::Label(label);
        let kind = GapKind::UnreachedLabel;
        push_sparing(&mut gaps, Gap { kind, place })?;
    }
    for found in &coverage.rules {
        if found.is_unmet() {
            let place = GapPlace::Rule(found.rule);
            let kind = GapKind::UnmetRule;
            push_sparing(&mut gaps, Gap { kind, place })?;
        }
    }
    for number in &coverage.unclaimed {
        let rule = RuleId {
            kind: RuleKind::Cover,
            number: *number,
        };
        let place = GapPlace::Rule(rule);
        let kind = GapKind::UnclaimedLock;
        push_sparing(&mut gaps, Gap { kind, place })?;
    }
    Ok(gaps)
}
