// A list of steps that is being written.

use crate::step::{Amount, Change, Code, Jump, LineMarks, Mark, StackStep, Step, Use};
use mlk_names::Extent;
use mlk_program::Program;
use mlk_text::{Column, LineNumber, Name, push_sparing};
use std::alloc::{AllocError, Global};

/// The steps written so far, and what is needed to add more.
#[derive(Drop)]
pub(crate) struct Writer<'p, 'a> {
    pub(crate) alloc: Global,
    pub(crate) program: &'p Program<'a>,
    pub(crate) steps: Vec<Step<'a>>,
    // for each mark that was made, the index of its step
    targets: Vec<usize>,
    pub(crate) lines: LineMarks,
    /// the routine whose steps are being added: its index and its name
    pub(crate) routine: usize,
    pub(crate) name: &'a [u8],
    /// the line whose steps are being added
    pub(crate) line: LineNumber,
}

impl<'p, 'a> Writer<'p, 'a> {
    /// Makes a writer without steps, with a mark for each line of level 1 of `program`.
    pub(crate) fn new(
        alloc: Global,
        program: &'p Program<'a>,
    ) -> Result<Writer<'p, 'a>, AllocError> {
        let mut firsts = Vec::new(alloc);
        let mut targets = Vec::new(alloc);
        for routine in program.routines() {
            push_sparing(&mut firsts, targets.len())?;
            for _ in &routine.lines {
                push_sparing(&mut targets, 0)?;
            }
        }
        Ok(Writer {
            alloc,
            program,
            steps: Vec::new(alloc),
            targets,
            lines: LineMarks { firsts },
            routine: 0,
            name: b"",
            line: LineNumber::new(0),
        })
    }

    /// Returns the steps that were added.
    pub(crate) fn into_code(self) -> Code<'a> {
        let Writer {
            steps,
            targets,
            lines,
            ..
        } = self;
        Code {
            steps,
            targets,
            lines,
        }
    }

    /// Adds a step on the stack of values.
    pub(crate) fn push_value(&mut self, step: StackStep<'a>) -> Result<(), AllocError> {
        push_sparing(&mut self.steps, Step::Stack(step))
    }

    /// Adds a change of locals or of `$TEST`.
    pub(crate) fn push_change(&mut self, step: Change<'a>) -> Result<(), AllocError> {
        push_sparing(&mut self.steps, Step::Change(step))
    }

    /// Adds a jump.
    pub(crate) fn push_jump(&mut self, step: Jump) -> Result<(), AllocError> {
        push_sparing(&mut self.steps, Step::Jump(step))
    }

    /// Adds the step that removes `count` values from the stack.
    pub(crate) fn push_discard(&mut self, count: usize) -> Result<(), AllocError> {
        if count == 0 {
            return Ok(());
        }
        self.push_value(StackStep::Discard(count))
    }

    /// Makes a mark, which `place` puts before a step.
    pub(crate) fn make_mark(&mut self) -> Result<Mark, AllocError> {
        let index = self.targets.len();
        push_sparing(&mut self.targets, 0)?;
        Ok(Mark { index })
    }

    /// Puts `mark` before the next step that is added.
    pub(crate) fn place(&mut self, mark: Mark) {
        let address = self.steps.len();
        if let Some(target) = self.targets.get_mut(mark.index) {
            *target = address;
        }
    }

    // The use of `global` with `count` subscripts, whose caret is at `column`.
    fn use_at(&self, column: Column, global: &'a Name, count: usize, extent: Extent) -> Use<'a> {
        Use {
            routine: self.name,
            line: self.line,
            column,
            global,
            count,
            extent,
        }
    }

    /// Adds a read of `global` with `count` subscripts, whose caret is at `column`.
    pub(crate) fn push_read(
        &mut self,
        column: Column,
        global: &'a Name,
        count: usize,
        extent: Extent,
    ) -> Result<(), AllocError> {
        let place = self.use_at(column, global, count, extent);
        push_sparing(&mut self.steps, Step::Read(place))
    }

    /// Adds a write of the node of `global` with `count` subscripts, whose caret is at `column`.
    pub(crate) fn push_write(
        &mut self,
        column: Column,
        global: &'a Name,
        count: usize,
        amount: Amount,
    ) -> Result<(), AllocError> {
        let place = self.use_at(column, global, count, Extent::Node);
        push_sparing(&mut self.steps, Step::Write(place, amount))
    }
}
