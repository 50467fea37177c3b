// The units of routines.

use crate::action::{add_command, add_control};
use crate::directory::{Directory, begins_unit};
use crate::draft::Draft;
use crate::program::{Origin, Program, Unit, UnitId};
use crate::step::Step;
use crate::word::{Word, Words};
use mlk_syntax::{Commands, Line, Routine};
use mlk_text::{LineNumber, Name, push_sparing};
use std::alloc::{AllocError, Global};
use std::mem;

// The units so far, and the steps of the current line.
#[derive(Drop)]
struct Maker<'a> {
    draft: Draft<'a>,
    units: Vec<Unit<'a>>,
}

impl<'a> Maker<'a> {
    // Adds `unit`, and returns its id.
    fn add_unit(&mut self, unit: Unit<'a>) -> Result<UnitId, AllocError> {
        let index = self.units.len();
        push_sparing(&mut self.units, unit)?;
        Ok(UnitId { index })
    }

    // Moves the steps of the draft's line to the unit `id`.
    fn add_steps(&mut self, id: UnitId) -> Result<(), AllocError> {
        let alloc = self.draft.alloc;
        let steps: Vec<Step<'a>> = mem::replace(&mut self.draft.steps, Vec::new(alloc));
        let own: Vec<Word> = mem::replace(&mut self.draft.own, Vec::new(alloc));
        if let Some(unit) = self.units.get_mut(id.index) {
            for word in &own {
                push_sparing(&mut unit.own, *word)?;
            }
            push_sparing(&mut unit.lines, steps)?;
        }
        Ok(())
    }

    // Adds a unit for the block below a line of the unit `id`, if there is one.
    fn add_block_unit(&mut self, id: UnitId, line: &'a Line) -> Result<Option<UnitId>, AllocError> {
        let Some(first) = line.block.first() else {
            return Ok(None);
        };
        let alloc = self.draft.alloc;
        let routine = self.draft.routine;
        let unit = Unit::new(alloc, Origin::Block(id), routine, first.number);
        Ok(Some(self.add_unit(unit)?))
    }

    // The unit that begins at `line`, without its lines.
    fn label_unit(
        &mut self,
        routine: &'a [u8],
        is_first: bool,
        line: &'a Line,
    ) -> Result<Unit<'a>, AllocError> {
        let alloc = self.draft.alloc;
        let label = match line.label.as_ref() {
            Some(label) => Some(label.as_bytes()),
            None => None,
        };
        let origin = match label {
            Some(label) if !is_first => Origin::Label(label),
            _ => Origin::First,
        };
        let mut unit = Unit::new(alloc, origin, routine, line.number);
        unit.label = label;
        if let Some(formals) = line.formals.as_ref() {
            unit.has_formals = true;
            unit.formals = words_of(alloc, &mut self.draft.words, formals.as_slice())?;
        }
        Ok(unit)
    }
}

// The words of names, in order.
fn words_of<'a>(
    alloc: Global,
    words: &mut Words<'a>,
    names: &'a [Name],
) -> Result<Vec<Word>, AllocError> {
    let mut found = Vec::new(alloc);
    for name in names {
        let word = words.add(name.as_bytes())?;
        push_sparing(&mut found, word)?;
    }
    Ok(found)
}

// Adds the steps of the commands of a line.
fn add_commands<'a>(draft: &mut Draft<'a>, commands: &'a Commands) -> Result<(), AllocError> {
    for command in &commands.before {
        add_command(draft, command)?;
    }
    if let Some(last) = &commands.last {
        add_control(draft, &last.control)?;
        add_commands(draft, &last.rest)?;
    }
    Ok(())
}

// Adds the units that begin at a routine's first line and labels, without their lines: calls need the ids of all of them.
fn add_label_units<'a>(maker: &mut Maker<'a>, routine: &'a Routine) -> Result<(), AllocError> {
    let name = routine.name.as_bytes();
    for (place, line) in routine.lines.iter().enumerate() {
        if begins_unit(place == 0, line) {
            let unit = maker.label_unit(name, place == 0, line)?;
            let _ = maker.add_unit(unit)?;
        }
    }
    Ok(())
}

// Adds a line to the unit `id`, and returns the unit of its block, if it has one.
fn add_line<'a>(
    maker: &mut Maker<'a>,
    id: UnitId,
    line: &'a Line,
) -> Result<Option<UnitId>, AllocError> {
    let block = maker.add_block_unit(id, line)?;
    maker.draft.line = line.number;
    maker.draft.block = block;
    add_commands(&mut maker.draft, &line.commands)?;
    maker.add_steps(id)?;
    Ok(block)
}

// Adds the lines of a block to the unit `id`, each with its own block.
fn add_lines<'a>(maker: &mut Maker<'a>, id: UnitId, lines: &'a [Line]) -> Result<(), AllocError> {
    for line in lines {
        let block = add_line(maker, id, line)?;
        if let Some(block) = block {
            add_lines(maker, block, line.block.as_slice())?;
        }
    }
    Ok(())
}

// Adds to the unit `id` that its last line continues into the unit `next`, unless that one begins, at `line`, with a formal list.
fn add_next(
    maker: &mut Maker<'_>,
    id: UnitId,
    next: UnitId,
    line: &Line,
) -> Result<(), AllocError> {
    if line.formals.is_some() {
        return Ok(());
    }
    maker.draft.line = line.number;
    maker.draft.call_next(next)?;
    maker.add_steps(id)
}

// Adds the lines of a routine, whose units are numbered from `first`, and returns the number after the last.
fn add_routine<'a>(
    maker: &mut Maker<'a>,
    routine: &'a Routine,
    first: usize,
) -> Result<usize, AllocError> {
    maker.draft.routine = routine.name.as_bytes();
    let mut id = UnitId { index: first };
    let mut count = first;
    for (place, line) in routine.lines.iter().enumerate() {
        if begins_unit(place == 0, line) {
            let next = UnitId { index: count };
            if place > 0 {
                add_next(maker, id, next, line)?;
            }
            id = next;
            count = count.saturating_add(1);
        }
        let block = add_line(maker, id, line)?;
        if let Some(block) = block {
            add_lines(maker, block, line.block.as_slice())?;
        }
    }
    Ok(count)
}

/// The program of `routines`: first the units that begin at first lines and labels, in the order of their lines, then those of
/// blocks.
pub fn program_of<'a>(alloc: Global, routines: &[&'a Routine]) -> Result<Program<'a>, AllocError> {
    let draft = Draft {
        alloc,
        words: Words::new(alloc),
        directory: Directory::of(alloc, routines)?,
        routine: b"",
        line: LineNumber::new(0),
        block: None,
        steps: Vec::new(alloc),
        own: Vec::new(alloc),
    };
    let mut maker = Maker {
        draft,
        units: Vec::new(alloc),
    };
    for routine in routines {
        add_label_units(&mut maker, routine)?;
    }
    let mut first: usize = 0;
    for routine in routines {
        first = add_routine(&mut maker, routine, first)?;
    }
    let Maker { draft, units } = maker;
    let Draft { words, .. } = draft;
    Ok(Program { words, units })
}
