// Facts about units, without a walk.

use crate::note::Note;
use crate::spot::Spot;
use indexmap::IndexMap;
use mlk_suggest_steps::{Call, CallKind, Program, Step, UnitId};
use mlk_survey_trees::Position;
use mlk_text::push_sparing;
use std::alloc::{AllocError, Global};

/// Facts about a unit.
#[derive(Clone, Copy, Drop)]
pub struct UnitFacts {
    /// whether some JOB begins with it
    pub is_job: bool,
    /// whether another unit calls it
    pub is_called: bool,
    /// whether a unit of another routine calls it
    pub is_called_outside: bool,
    /// whether the lines above continue into it
    pub is_run_into: bool,
    /// whether it counts as an entry: JOB begins with it, or it is called only by units that are not entered either
    pub is_entry: bool,
    /// whether it is called while no lock is held
    pub is_called_free: bool,
    /// the number of uses of globals on its lines
    pub uses: usize,
    /// the number of arguments of LOCK on its lines
    pub claims: usize,
    /// whether it calls a unit that is given
    pub calls: bool,
    /// whether it does anything but quit
    pub has_steps: bool,
}

impl UnitFacts {
    // Nothing is known yet.
    fn new() -> UnitFacts {
        UnitFacts {
            is_job: false,
            is_called: false,
            is_called_outside: false,
            is_run_into: false,
            is_entry: false,
            is_called_free: false,
            uses: 0,
            claims: 0,
            calls: false,
            has_steps: false,
        }
    }
}

// Whether two units are of one routine.
fn are_in_one_routine(program: &Program<'_>, unit: UnitId, other: UnitId) -> bool {
    match (program.unit(unit), program.unit(other)) {
        (Some(unit), Some(other)) => unit.routine == other.routine,
        _ => false,
    }
}

/// Facts about the units of a program.
#[derive(Drop)]
pub(crate) struct Facts {
    pub(crate) units: Vec<UnitFacts>,
    /// for each unit with which a JOB begins, the first such JOB
    pub(crate) jobs: IndexMap<UnitId, Spot>,
}

impl Facts {
    // Adds that a unit calls a unit.
    fn add_call(&mut self, called: UnitId, caller: UnitId, kind: CallKind, is_outside: bool) {
        let Some(facts) = self.units.get_mut(called.index()) else {
            return;
        };
        match kind {
            CallKind::Next => {}
            CallKind::Job => facts.is_job = true,
            CallKind::Do | CallKind::Extrinsic | CallKind::Block => {
                let is_other = called != caller;
                facts.is_called = facts.is_called || is_other;
                facts.is_called_outside = facts.is_called_outside || is_outside;
            }
        }
    }

    // Adds a JOB that begins with a unit, unless one is known.
    fn add_job(&mut self, begun: UnitId, at: Spot) -> Result<(), AllocError> {
        if self.jobs.contains_key(&begun) {
            return Ok(());
        }
        let Ok(_) = self.jobs.insert(begun, at) else {
            return Err(AllocError);
        };
        Ok(())
    }

    // Adds a call of the unit `id`.
    fn add_call_step(
        &mut self,
        program: &Program<'_>,
        id: UnitId,
        position: &Position<'_>,
        call: &Call,
    ) -> Result<(), AllocError> {
        let Some(called) = call.unit else {
            return Ok(());
        };
        let is_outside = !are_in_one_routine(program, id, called);
        self.add_call(called, id, call.kind, is_outside);
        if call.kind == CallKind::Job {
            self.add_job(called, Spot::of(id, position))?;
        }
        Ok(())
    }

    // Adds a step of the unit `id`.
    fn add_step(
        &mut self,
        program: &Program<'_>,
        id: UnitId,
        step: &Step<'_>,
    ) -> Result<(), AllocError> {
        if let Step::Call(position, call) = step {
            self.add_call_step(program, id, position, call)?;
        }
        if let Some(facts) = self.units.get_mut(id.index()) {
            match step {
                Step::Call(_, call) => facts.calls = facts.calls || call.unit.is_some(),
                Step::Touch(_, _) => facts.uses = facts.uses.saturating_add(1),
                Step::Claim(_, _) | Step::Release(_, _) => {
                    facts.claims = facts.claims.saturating_add(1);
                }
                _ => {}
            }
            facts.has_steps = facts.has_steps || !is_bare(step);
        }
        Ok(())
    }

    // Adds the steps of a line of the unit `id`.
    fn add_line(
        &mut self,
        program: &Program<'_>,
        id: UnitId,
        steps: &[Step<'_>],
    ) -> Result<(), AllocError> {
        for step in steps {
            self.add_step(program, id, step)?;
        }
        Ok(())
    }

    // Adds the steps of the unit `id`.
    fn add_unit(&mut self, program: &Program<'_>, id: UnitId) -> Result<(), AllocError> {
        let Some(unit) = program.unit(id) else {
            return Ok(());
        };
        for line in &unit.lines {
            self.add_line(program, id, line.as_slice())?;
        }
        Ok(())
    }

    // Adds that the lines of a unit continue into the next unit.
    fn add_next(&mut self, unit: UnitId, next: UnitId) {
        if let Some(facts) = self.units.get_mut(unit.index()) {
            facts.has_steps = true;
        }
        if let Some(facts) = self.units.get_mut(next.index()) {
            facts.is_run_into = true;
        }
    }

    /// Marks the units that continue into the next one. `notes` are those of a walk.
    pub(crate) fn add_nexts(&mut self, notes: &[Note<'_, '_>]) {
        for note in notes {
            if let Step::Call(_, call) = note.step {
                if let (CallKind::Next, Some(next)) = (call.kind, call.unit) {
                    self.add_next(note.unit, next);
                }
            }
        }
    }
}

// Whether a step does nothing: QUIT, and a call of the next unit, which may not be reached.
fn is_bare(step: &Step<'_>) -> bool {
    match step {
        Step::Quit => true,
        Step::Call(_, call) => call.kind == CallKind::Next,
        _ => false,
    }
}

// Empty facts for `count` units.
fn no_facts(alloc: Global, count: usize) -> Result<Facts, AllocError> {
    let mut units = Vec::with_capacity(alloc, count)?;
    for _ in 0..count {
        push_sparing(&mut units, UnitFacts::new())?;
    }
    Ok(Facts {
        units,
        jobs: IndexMap::new(alloc),
    })
}

/// The facts about the units of `program`, without a walk.
pub(crate) fn facts_of(alloc: Global, program: &Program<'_>) -> Result<Facts, AllocError> {
    let count = program.units.len();
    let mut facts = no_facts(alloc, count)?;
    for index in 0..count {
        facts.add_unit(program, UnitId::new(index))?;
    }
    Ok(facts)
}
