// The entries at which jobs begin.

use crate::known::KnownRules;
use mlk_suggest::{Evidence, Spot, UnitFacts};
use mlk_suggest_steps::{Program, UnitId};
use mlk_text::push_sparing;
use std::alloc::{AllocError, Global};

/// Why a label counts as an entry.
#[derive(Clone, Copy, Drop, PartialEq, Eq)]
pub enum EntryKind {
    /// the JOB at this place begins there
    Job(Spot),
    /// it is not called
    Uncalled,
    /// it is not called, and the lines above continue into it
    RunInto,
    /// it is not called, and it only claims or releases
    Helper,
    /// it is not called, and it touches, claims and calls nothing
    Idle,
    /// it is called only by units that are not entered either
    Circle,
}

/// A label at which jobs may begin.
#[derive(Clone, Copy, Drop)]
pub struct EntryGuess {
    pub unit: UnitId,
    pub kind: EntryKind,
}

/// The labels at which jobs may begin, and other candidates.
#[derive(Drop)]
pub(crate) struct Entries {
    pub(crate) entries: Vec<EntryGuess>,
    /// labels that other routines call without holding a lock, and that claim or release locks
    pub(crate) free: Vec<UnitId>,
    /// labels and first lines that are not called and that only quit
    pub(crate) bare: Vec<UnitId>,
}

// Why a unit with these facts is an entry, given the first JOB that begins there.
fn kind_of(facts: &UnitFacts, job: Option<&Spot>) -> EntryKind {
    if let Some(spot) = job {
        return EntryKind::Job(*spot);
    }
    if facts.is_called {
        return EntryKind::Circle;
    }
    if facts.is_run_into {
        return EntryKind::RunInto;
    }
    if facts.uses > 0 || facts.calls {
        return EntryKind::Uncalled;
    }
    if facts.claims > 0 {
        EntryKind::Helper
    } else {
        EntryKind::Idle
    }
}

/// The entries at which jobs may begin in `program`, in the order of its units, without those that `known` declares.
pub(crate) fn entries_of(
    alloc: Global,
    program: &Program<'_>,
    evidence: &Evidence<'_>,
    known: KnownRules<'_>,
) -> Result<Entries, AllocError> {
    let mut entries = Entries {
        entries: Vec::new(alloc),
        free: Vec::new(alloc),
        bare: Vec::new(alloc),
    };
    for (index, (unit, facts)) in program.units.iter().zip(&evidence.units).enumerate() {
        let id = UnitId::new(index);
        if !unit.is_labelled() || known.have_entry(unit) {
            continue;
        }
        if facts.is_entry && facts.has_steps {
            let kind = kind_of(facts, evidence.jobs.get(&id));
            push_sparing(&mut entries.entries, EntryGuess { unit: id, kind })?;
        } else if facts.is_entry {
            push_sparing(&mut entries.bare, id)?;
        } else if facts.is_called_outside && facts.is_called_free && facts.claims > 0 {
            push_sparing(&mut entries.free, id)?;
        }
    }
    Ok(entries)
}
