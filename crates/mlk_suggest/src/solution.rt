// How all units return.

use crate::note::Note;
use crate::state::State;
use crate::walker::Walker;
use mlk_suggest_held::Tables;
use mlk_suggest_steps::{Program, UnitId};
use mlk_text::push_sparing;
use std::alloc::{AllocError, Global};
use std::collections::VecDeque;

/// How often a unit is walked at most, on average, until no unit returns in a new case.
const MOST_WALKS: usize = 64;

/// Units that wait, each at most once.
#[derive(Drop)]
pub(crate) struct Queue {
    waiting: VecDeque<UnitId>,
    is_waiting: Vec<bool>,
}

impl Queue {
    /// A queue of `count` units, none of which waits.
    pub(crate) fn new(alloc: Global, count: usize) -> Result<Queue, AllocError> {
        let mut is_waiting = Vec::with_capacity(alloc, count)?;
        for _ in 0..count {
            push_sparing(&mut is_waiting, false)?;
        }
        Ok(Queue {
            waiting: VecDeque::new(alloc),
            is_waiting,
        })
    }

    // Marks a unit as waiting or not, and returns whether it was marked otherwise before.
    fn mark(&mut self, unit: UnitId, waits: bool) -> bool {
        match self.is_waiting.get_mut(unit.index()) {
            Some(mark) => {
                let is_other = *mark != waits;
                *mark = waits;
                is_other
            }
            None => false,
        }
    }

    /// Adds `unit`, unless it waits already.
    pub(crate) fn push(&mut self, unit: UnitId) -> Result<(), AllocError> {
        if self.mark(unit, true) {
            let Ok(()) = self.waiting.push_back(unit) else {
                return Err(AllocError);
            };
        }
        Ok(())
    }

    /// Removes the unit that has waited longest, and returns it; `None` if none waits.
    pub(crate) fn pop(&mut self) -> Option<UnitId> {
        let unit = self.waiting.pop_front()?;
        let _ = self.mark(unit, false);
        Some(unit)
    }
}

// Adds `state` to the states in which a unit returns. If it is new, the unit's callers are added to the queue.
fn add_return(
    walker: &mut Walker<'_, '_>,
    queue: &mut Queue,
    callers: &[Vec<UnitId>],
    unit: UnitId,
    state: &State,
) -> Result<(), AllocError> {
    let has_grown = match walker.returns.get_mut(unit.index()) {
        Some(known) => known.join(&mut walker.tables, state)?,
        None => false,
    };
    if !has_grown {
        return Ok(());
    }
    if let Some(others) = callers.get(unit.index()) {
        for caller in others {
            queue.push(*caller)?;
        }
    }
    Ok(())
}

// Finds how all units return. Blocks come first, and units further down before those above.
fn solve<'p, 'a>(walker: &mut Walker<'p, 'a>, callers: &[Vec<UnitId>]) -> Result<(), AllocError> {
    let count = callers.len();
    let mut queue = Queue::new(walker.alloc, count)?;
    for index in (0..count).rev() {
        queue.push(UnitId::new(index))?;
    }
    for _ in 0..count.saturating_mul(MOST_WALKS) {
        let Some(unit) = queue.pop() else {
            break;
        };
        let state = walker.walk_unit(unit)?;
        add_return(walker, &mut queue, callers, unit, &state)?;
    }
    Ok(())
}

/// The result of a walk: its notes, unit by unit, and the tables of their numbers.
#[derive(Drop)]
pub(crate) struct Solution<'p, 'a> {
    pub(crate) tables: Tables,
    pub(crate) notes: Vec<Note<'p, 'a>>,
}

// Walks each unit once more, and takes notes.
fn note_all(walker: &mut Walker<'_, '_>, count: usize) -> Result<(), AllocError> {
    walker.is_noting = true;
    for index in 0..count {
        let _ = walker.walk_unit(UnitId::new(index))?;
    }
    Ok(())
}

/// Walks `program` until it is known how each unit returns, and then takes notes.
pub(crate) fn solution_of<'p, 'a>(
    alloc: Global,
    program: &'p Program<'a>,
) -> Result<Solution<'p, 'a>, AllocError> {
    let callers = program.callers(alloc)?;
    let tables = Tables::new(alloc)?;
    let mut returns = Vec::with_capacity(alloc, callers.len())?;
    for _ in &callers {
        let none = State::none(alloc);
        push_sparing(&mut returns, none)?;
    }
    let mut walker = Walker {
        alloc,
        program,
        tables,
        returns,
        is_noting: false,
        notes: Vec::new(alloc),
    };
    solve(&mut walker, callers.as_slice())?;
    note_all(&mut walker, callers.len())?;
    let Walker { tables, notes, .. } = walker;
    Ok(Solution { tables, notes })
}
