// The steps of a line while they are collected.

use crate::directory::Directory;
use crate::lock_name::{LockName, Symbol};
use crate::program::UnitId;
use crate::step::{Call, CallKind, Claim, Reference, Step};
use crate::word::{Word, Words};
use mlk_names::{Access, Extent};
use mlk_survey_trees::Position;
use mlk_syntax::{Actual, Callee, Expr, LockArgument, Sign, Subscript};
use mlk_text::{Column, LineNumber, Name, push_sparing};
use std::alloc::{AllocError, Global};

/// The steps of a line so far, and what is needed to find more.
#[derive(Drop)]
pub(crate) struct Draft<'a> {
    pub(crate) alloc: Global,
    pub(crate) words: Words<'a>,
    pub(crate) directory: Directory<'a>,
    /// the name of the line's routine
    pub(crate) routine: &'a [u8],
    pub(crate) line: LineNumber,
    /// the unit of the block below the line; `None` if there is no block
    pub(crate) block: Option<UnitId>,
    pub(crate) steps: Vec<Step<'a>>,
    /// the locals that NEWs of the line create
    pub(crate) own: Vec<Word>,
}

impl<'a> Draft<'a> {
    /// Adds `step`.
    pub(crate) fn push(&mut self, step: Step<'a>) -> Result<(), AllocError> {
        push_sparing(&mut self.steps, step)
    }

    /// The place of `column` on the line.
    pub(crate) fn position_at(&self, column: Column) -> Position<'a> {
        Position {
            routine: self.routine,
            line: self.line,
            column,
        }
    }

    /// Adds a use of the global `name`, whose caret is at `column`.
    pub(crate) fn touch(
        &mut self,
        column: Column,
        name: &'a Name,
        subscripts: &'a [Subscript],
        extent: Extent,
        access: Access,
    ) -> Result<(), AllocError> {
        let reference = Reference {
            global: self.words.add(name.as_bytes())?,
            subscripts: Symbol::all_of(self.alloc, &mut self.words, subscripts)?,
            extent,
            access,
        };
        let position = self.position_at(column);
        self.push(Step::Touch(position, reference))
    }

    /// Adds a change of the local `name`.
    pub(crate) fn change(&mut self, name: &'a Name) -> Result<(), AllocError> {
        let word = self.words.add(name.as_bytes())?;
        self.push(Step::Change(word))
    }

    /// Adds that NEW creates the local `name`.
    pub(crate) fn make_new(&mut self, name: &'a Name) -> Result<(), AllocError> {
        let word = self.words.add(name.as_bytes())?;
        push_sparing(&mut self.own, word)?;
        self.push(Step::Change(word))
    }

    // Adds what is known of an actual.
    fn add_actual(&mut self, call: &mut Call, actual: &'a Actual) -> Result<(), AllocError> {
        let symbol = match actual {
            Actual::Value(e) => Symbol::of(&mut self.words, e)?,
            Actual::ByRef(_, name) => {
                let word = self.words.add(name.as_bytes())?;
                push_sparing(&mut call.by_reference, word)?;
                Symbol::Local(word)
            }
            Actual::Missing => Symbol::Unknown,
        };
        push_sparing(&mut call.actuals, symbol)
    }

    /// Adds a call of `callee` with `actuals`, whose steps are there already.
    pub(crate) fn call(
        &mut self,
        column: Column,
        callee: &'a Callee,
        actuals: &'a [Actual],
        kind: CallKind,
    ) -> Result<(), AllocError> {
        let mut call = Call {
            unit: self.directory.unit(self.routine, callee),
            kind,
            actuals: Vec::new(self.alloc),
            by_reference: Vec::new(self.alloc),
        };
        for actual in actuals {
            self.add_actual(&mut call, actual)?;
        }
        let position = self.position_at(column);
        self.push(Step::Call(position, call))
    }

    // Adds a call without actuals.
    fn call_plainly(
        &mut self,
        column: Column,
        unit: Option<UnitId>,
        kind: CallKind,
    ) -> Result<(), AllocError> {
        let call = Call {
            unit,
            kind,
            actuals: Vec::new(self.alloc),
            by_reference: Vec::new(self.alloc),
        };
        let position = self.position_at(column);
        self.push(Step::Call(position, call))
    }

    /// Adds a call of the block below the line, by a DO at `column`.
    pub(crate) fn call_block(&mut self, column: Column) -> Result<(), AllocError> {
        self.call_plainly(column, self.block, CallKind::Block)
    }

    /// Adds that the line runs into the unit `next`.
    pub(crate) fn call_next(&mut self, next: UnitId) -> Result<(), AllocError> {
        self.call_plainly(Column::new(1), Some(next), CallKind::Next)
    }

    // The names of an argument of LOCK.
    fn lock_names(&mut self, argument: &'a LockArgument) -> Result<Vec<LockName>, AllocError> {
        let mut names = Vec::new(self.alloc);
        for variable in &argument.names {
            if let Some(name) = LockName::of(self.alloc, &mut self.words, variable)? {
                push_sparing(&mut names, name)?;
            }
        }
        Ok(names)
    }

    // The position of an argument of LOCK, which is that of its first name.
    fn lock_position(&self, argument: &LockArgument) -> Position<'a> {
        match argument.names.first() {
            Some(name) => self.position_at(name.column),
            None => self.position_at(Column::new(1)),
        }
    }

    /// Adds the claim or the release of `argument`, which is one of LOCK.
    pub(crate) fn lock(&mut self, argument: &'a LockArgument) -> Result<(), AllocError> {
        let position = self.lock_position(argument);
        let names = self.lock_names(argument)?;
        if argument.sign == Sign::Minus {
            return self.push(Step::Release(position, names));
        }
        let claim = Claim {
            names,
            releases_all: argument.sign == Sign::None,
            is_timed: argument.timeout.is_some(),
        };
        self.push(Step::Claim(position, claim))
    }

    /// Adds a use of the variable `name`, whose subscripts' steps are there already: a touch of a global, or the change of a
    /// local that is written.
    pub(crate) fn touch_variable(
        &mut self,
        name: &'a Expr,
        extent: Extent,
        access: Access,
    ) -> Result<(), AllocError> {
        match name {
            Expr::Global(column, name, subscripts) => {
                self.touch(*column, name, subscripts, extent, access)
            }
            Expr::Local(name, subscripts) if subscripts.is_empty() && access == Access::Writes => {
                self.change(name)
            }
            _ => Ok(()),
        }
    }
}
