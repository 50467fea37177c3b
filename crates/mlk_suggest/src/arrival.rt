// The locks that are held when units are called.

use crate::note::Note;
use crate::solution::Queue;
use crate::spot::Spot;
use crate::state::State;
use mlk_suggest_held::{Held, Holding, Lock, Renaming, Tables};
use mlk_suggest_steps::{Call, CallKind, Program, Step, Unit, UnitId};
use mlk_text::push_sparing;
use std::alloc::{AllocError, Global};

/// The maximum number of ways in which a unit is entered.
const MOST_ARRIVALS: usize = 32;

/// A way in which a unit is entered: the held locks, in the unit's own names, and the first call at which these are held; `None`
/// if a job begins with the unit.
#[derive(Clone, Copy, Drop)]
pub struct Arrival {
    pub holding: Holding,
    pub from: Option<Spot>,
}

/// The ways in which units are entered.
#[derive(Drop)]
pub(crate) struct Arrivals {
    of_units: Vec<Vec<Arrival>>,
}

impl Arrivals {
    // No unit of `count` is entered.
    fn new(alloc: Global, count: usize) -> Result<Arrivals, AllocError> {
        let mut of_units = Vec::with_capacity(alloc, count)?;
        for _ in 0..count {
            push_sparing(&mut of_units, Vec::new(alloc))?;
        }
        Ok(Arrivals { of_units })
    }

    /// The ways in which `unit` is entered.
    pub(crate) fn of(&self, unit: UnitId) -> &[Arrival] {
        match self.of_units.get(unit.index()) {
            Some(arrivals) => arrivals.as_slice(),
            None => &[],
        }
    }

    // Adds a way in which a unit is entered, unless it is there already or there are too many. Returns whether it was added.
    fn add(&mut self, unit: UnitId, arrival: &Arrival) -> Result<bool, AllocError> {
        let Some(arrivals) = self.of_units.get_mut(unit.index()) else {
            return Ok(false);
        };
        if arrivals.len() >= MOST_ARRIVALS
            || arrivals
                .iter()
                .any(|known| known.holding == arrival.holding)
        {
            return Ok(false);
        }
        push_sparing(arrivals, *arrival)?;
        Ok(true)
    }
}

// The locks of a caller in the names of its callee: each with the formals to which its subscripts are passed, and unchanged.
fn locks_in_callee(
    alloc: Global,
    tables: &mut Tables,
    locks: &[Lock],
    called: &Unit<'_>,
    call: &Call,
) -> Result<Vec<Lock>, AllocError> {
    let formals = called.formals.as_slice();
    let mut found = Vec::new(alloc);
    for lock in locks {
        let by = Renaming::ByFormals(formals, call.actuals.as_slice());
        let renamed = tables.rename_lock(*lock, by)?;
        push_sparing(&mut found, renamed)?;
        let beside = tables.rename_lock(*lock, Renaming::BesideFormals(formals))?;
        push_sparing(&mut found, beside)?;
    }
    found.sort_unstable();
    found.dedup();
    Ok(found)
}

// The held locks in a callee, in its own names, if `holding` is held at a call of it.
fn in_callee(
    alloc: Global,
    tables: &mut Tables,
    holding: Holding,
    called: &Unit<'_>,
    call: &Call,
) -> Result<Holding, AllocError> {
    if called.formals.is_empty() || tables.locks(holding).is_empty() {
        return Ok(holding);
    }
    let locks = Vec::from_slice(alloc, tables.locks(holding))?;
    let mut held = Held::new(alloc);
    held.locks = locks_in_callee(alloc, tables, locks.as_slice(), called, call)?;
    tables.holding(held)
}

/// Finds the ways in which units are entered.
#[derive(Drop)]
pub(crate) struct Tracer<'p, 'a> {
    pub(crate) alloc: Global,
    pub(crate) program: &'p Program<'a>,
    /// for each unit, the index of its first note, and the index after its last
    ranges: Vec<(usize, usize)>,
    pub(crate) arrivals: Arrivals,
    queue: Queue,
}

// For each of `count` units, the index of its first note, and the index after its last.
fn ranges_of(
    alloc: Global,
    notes: &[Note<'_, '_>],
    count: usize,
) -> Result<Vec<(usize, usize)>, AllocError> {
    let mut ranges = Vec::with_capacity(alloc, count)?;
    for _ in 0..count {
        push_sparing(&mut ranges, (0, 0))?;
    }
    for (place, note) in notes.iter().enumerate() {
        if let Some(range) = ranges.get_mut(note.unit.index()) {
            if range.1 == 0 {
                range.0 = place;
            }
            range.1 = place.saturating_add(1);
        }
    }
    Ok(ranges)
}

impl<'p, 'a> Tracer<'p, 'a> {
    /// A tracer of `program` and its notes. No unit is entered yet.
    pub(crate) fn new(
        alloc: Global,
        program: &'p Program<'a>,
        notes: &[Note<'_, '_>],
    ) -> Result<Tracer<'p, 'a>, AllocError> {
        let count = program.units.len();
        Ok(Tracer {
            alloc,
            program,
            ranges: ranges_of(alloc, notes, count)?,
            arrivals: Arrivals::new(alloc, count)?,
            queue: Queue::new(alloc, count)?,
        })
    }

    /// Whether `unit` is entered in some way.
    pub(crate) fn is_entered(&self, unit: UnitId) -> bool {
        !self.arrivals.of(unit).is_empty()
    }

    // The index of a unit's first note, and the index after its last.
    fn range(&self, unit: UnitId) -> (usize, usize) {
        self.ranges.get(unit.index()).copied().unwrap_or((0, 0))
    }

    /// Adds a way in which `unit` is entered.
    pub(crate) fn enter(&mut self, unit: UnitId, arrival: &Arrival) -> Result<(), AllocError> {
        if self.arrivals.add(unit, arrival)? {
            self.queue.push(unit)?;
        }
        Ok(())
    }

    // Adds the ways in which a call in a state enters its unit, if the calling unit was entered by `arrival`.
    fn trace_call(
        &mut self,
        tables: &mut Tables,
        state: &State,
        arrival: &Arrival,
        at: &Spot,
        call: &Call,
    ) -> Result<(), AllocError> {
        let Some(unit) = call.unit else {
            return Ok(());
        };
        let program = self.program;
        let Some(called) = program.unit(unit) else {
            return Ok(());
        };
        for case in &state.cases {
            let there = tables.holding_at(arrival.holding, state.changes, case.holding)?;
            let holding = in_callee(self.alloc, tables, there, called, call)?;
            let from = Some(*at);
            self.enter(unit, &Arrival { holding, from })?;
        }
        Ok(())
    }

    // Traces the calls among the notes of a unit that was entered by `arrival`.
    fn trace_notes(
        &mut self,
        tables: &mut Tables,
        notes: &[Note<'_, '_>],
        arrival: &Arrival,
    ) -> Result<(), AllocError> {
        for note in notes {
            if let Step::Call(position, call) = note.step {
                if call.kind != CallKind::Job {
                    let at = Spot::of(note.unit, position);
                    self.trace_call(tables, &note.state, arrival, &at, call)?;
                }
            }
        }
        Ok(())
    }

    /// Finds all ways in which units are entered from those that wait. `notes` are those of `new`.
    pub(crate) fn trace(
        &mut self,
        tables: &mut Tables,
        notes: &[Note<'_, '_>],
    ) -> Result<(), AllocError> {
        let most = self.program.units.len().saturating_mul(MOST_ARRIVALS);
        for _ in 0..most {
            let Some(unit) = self.queue.pop() else {
                break;
            };
            let (first, end) = self.range(unit);
            let own = notes.get(first..end).unwrap_or(&[]);
            let arrivals = Vec::from_slice(self.alloc, self.arrivals.of(unit))?;
            for arrival in &arrivals {
                self.trace_notes(tables, own, arrival)?;
            }
        }
        Ok(())
    }
}
