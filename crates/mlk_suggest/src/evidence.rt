// The evidence that a program gives for rules.

use crate::arrival::{Arrival, Tracer};
use crate::facts::{Facts, UnitFacts, facts_of};
use crate::note::Note;
use crate::solution::solution_of;
use crate::spot::Spot;
use indexmap::IndexMap;
use mlk_suggest_held::{Held, Holding, Lock, Tables};
use mlk_suggest_steps::{Claim, LockName, Program, Reference, Step, UnitId};
use mlk_text::push_sparing;
use std::alloc::{AllocError, Global};

/// The maximum number of ways in which a place is reached.
const MOST_MOMENTS: usize = 64;

/// A way in which a place is reached: the held locks, and the first call by which its unit is entered in this way; `None` if a
/// job begins with the unit.
#[derive(Clone, Copy, Drop, PartialEq, Eq)]
pub struct Moment {
    pub holding: Holding,
    pub from: Option<Spot>,
}

/// A use of a global, and the ways in which it is reached, at least one.
#[derive(Drop)]
pub struct TouchAt<'p> {
    pub spot: Spot,
    pub reference: &'p Reference,
    pub moments: Vec<Moment>,
}

/// A claim of a lock, and the ways in which it is reached.
#[derive(Drop)]
pub struct ClaimAt {
    pub spot: Spot,
    pub lock: Lock,
    pub is_timed: bool,
    /// whether the locks that were held before are still held while it waits
    pub is_nested: bool,
    pub moments: Vec<Moment>,
}

/// A release of a lock that is held in none of the ways in which the release is reached.
#[derive(Clone, Copy, Drop)]
pub struct ReleaseAt {
    pub spot: Spot,
    pub lock: Lock,
}

/// The evidence that a program gives for rules.
#[derive(Drop)]
pub struct Evidence<'p> {
    /// the tables of the numbers in it
    pub tables: Tables,
    pub touches: Vec<TouchAt<'p>>,
    pub claims: Vec<ClaimAt>,
    pub releases: Vec<ReleaseAt>,
    /// what is known of each unit, in the order of the units
    pub units: Vec<UnitFacts>,
    /// for each unit with which a JOB begins, the first such JOB
    pub jobs: IndexMap<UnitId, Spot>,
}

// Whether a unit begins at a label or a first line.
fn is_labelled(program: &Program<'_>, unit: UnitId) -> bool {
    match program.unit(unit) {
        Some(unit) => unit.is_labelled(),
        None => false,
    }
}

// The way in which jobs enter the unit with which they begin.
fn job_arrival(alloc: Global, tables: &mut Tables) -> Result<Arrival, AllocError> {
    let holding = tables.holding(Held::new(alloc))?;
    Ok(Arrival {
        holding,
        from: None,
    })
}

// Whether a unit is an entry regardless of the others: JOB begins with it, or it is not called.
fn is_plain_entry(program: &Program<'_>, facts: &UnitFacts, unit: UnitId) -> bool {
    facts.is_job || (!facts.is_called && is_labelled(program, unit))
}

// Enters all units that JOB begins or that are not called, and then, one by one, those that are still not entered.
fn enter_all(
    tracer: &mut Tracer<'_, '_>,
    tables: &mut Tables,
    notes: &[Note<'_, '_>],
    facts: &mut Facts,
) -> Result<(), AllocError> {
    let begin = job_arrival(tracer.alloc, tables)?;
    for (index, known) in facts.units.iter_mut().enumerate() {
        let unit = UnitId::new(index);
        if is_plain_entry(tracer.program, known, unit) {
            known.is_entry = true;
            tracer.enter(unit, &begin)?;
        }
    }
    tracer.trace(tables, notes)?;
    for (index, known) in facts.units.iter_mut().enumerate() {
        let unit = UnitId::new(index);
        if !tracer.is_entered(unit) && is_labelled(tracer.program, unit) && !known.is_run_into {
            known.is_entry = true;
            tracer.enter(unit, &begin)?;
            tracer.trace(tables, notes)?;
        }
    }
    Ok(())
}

// Whether one of these ways is a call while no lock is held.
fn is_called_free(tables: &Tables, arrivals: &[Arrival]) -> bool {
    arrivals.iter().any(|arrival| arrival.from.is_some()
        && tables.locks(arrival.holding).is_empty())
}

// Marks the units that are called while no lock is held.
fn add_free_calls(tables: &Tables, tracer: &Tracer<'_, '_>, facts: &mut Facts) {
    for (index, known) in facts.units.iter_mut().enumerate() {
        let arrivals = tracer.arrivals.of(UnitId::new(index));
        known.is_called_free = is_called_free(tables, arrivals);
    }
}

// Adds a way, unless there is one with the same held locks, or there are too many.
fn add_moment(moments: &mut Vec<Moment>, moment: Moment) -> Result<(), AllocError> {
    if moments.len() >= MOST_MOMENTS
        || moments.iter().any(|known| known.holding == moment.holding)
    {
        return Ok(());
    }
    push_sparing(moments, moment)
}

// The ways in which the step of a note is reached.
fn moments_of(
    tracer: &Tracer<'_, '_>,
    tables: &mut Tables,
    note: &Note<'_, '_>,
) -> Result<Vec<Moment>, AllocError> {
    let mut moments = Vec::new(tracer.alloc);
    for arrival in tracer.arrivals.of(note.unit) {
        for case in &note.state.cases {
            let changes = note.state.changes;
            let holding = tables.holding_at(arrival.holding, changes, case.holding)?;
            let from = arrival.from;
            add_moment(&mut moments, Moment { holding, from })?;
        }
    }
    Ok(moments)
}

impl<'p> Evidence<'p> {
    // Adds the claims of an argument of LOCK.
    fn add_claims(
        &mut self,
        alloc: Global,
        spot: Spot,
        claim: &Claim,
        moments: Vec<Moment>,
    ) -> Result<(), AllocError> {
        for name in &claim.names {
            let lock = self.tables.lock(name.clone()?)?;
            let claim = ClaimAt {
                spot,
                lock,
                is_timed: claim.is_timed,
                is_nested: !claim.releases_all,
                moments: Vec::from_slice(alloc, moments.as_slice())?,
            };
            push_sparing(&mut self.claims, claim)?;
        }
        Ok(())
    }

    // Whether a lock is held in one of these ways.
    fn is_held(&self, lock: Lock, moments: &[Moment]) -> bool {
        moments.iter().any(|moment| {
            self.tables
                .released_lock(self.tables.locks(moment.holding), lock)
                .is_some()
        })
    }

    // Adds those releases of an argument of LOCK that release nothing.
    fn add_releases(
        &mut self,
        spot: Spot,
        names: &[LockName],
        moments: &[Moment],
    ) -> Result<(), AllocError> {
        for name in names {
            let lock = self.tables.lock(name.clone()?)?;
            if !moments.is_empty() && !self.is_held(lock, moments) {
                push_sparing(&mut self.releases, ReleaseAt { spot, lock })?;
            }
        }
        Ok(())
    }

    // Adds the evidence of a note.
    fn add_note(&mut self, tracer: &Tracer<'_, '_>, note: &Note<'p, '_>) -> Result<(), AllocError> {
        if matches!(note.step, Step::Call(_, _)) {
            return Ok(());
        }
        let moments = moments_of(tracer, &mut self.tables, note)?;
        match note.step {
            Step::Touch(position, reference) if !moments.is_empty() => {
                let spot = Spot::of(note.unit, position);
                add_touch(&mut self.touches, spot, reference, moments)
            }
            Step::Claim(position, claim) => {
                let spot = Spot::of(note.unit, position);
                self.add_claims(tracer.alloc, spot, claim, moments)
            }
            Step::Release(position, names) => {
                let spot = Spot::of(note.unit, position);
                self.add_releases(spot, names.as_slice(), moments.as_slice())
            }
            _ => Ok(()),
        }
    }
}

// Adds a use of a global.
fn add_touch<'p>(
    touches: &mut Vec<TouchAt<'p>>,
    spot: Spot,
    reference: &'p Reference,
    moments: Vec<Moment>,
) -> Result<(), AllocError> {
    let touch = TouchAt {
        spot,
        reference,
        moments,
    };
    push_sparing(touches, touch)
}

/// Walks `program`, and gathers the evidence that it gives for rules, in the order of its units.
pub fn evidence_of<'p, 'a>(
    alloc: Global,
    program: &'p Program<'a>,
) -> Result<Evidence<'p>, AllocError> {
    let solution = solution_of(alloc, program)?;
    let notes = solution.notes;
    let mut tables = solution.tables;
    let mut facts = facts_of(alloc, program)?;
    facts.add_nexts(notes.as_slice());
    let mut tracer = Tracer::new(alloc, program, notes.as_slice())?;
    enter_all(&mut tracer, &mut tables, notes.as_slice(), &mut facts)?;
    add_free_calls(&tables, &tracer, &mut facts);
    let mut evidence = Evidence {
        tables,
        touches: Vec::new(alloc),
        claims: Vec::new(alloc),
        releases: Vec::new(alloc),
        units: facts.units,
        jobs: facts.jobs,
    };
    for note in &notes {
        evidence.add_note(&tracer, note)?;
    }
    Ok(evidence)
}
