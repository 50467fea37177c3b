// Calls and returns on a path.

use crate::path::{Frame, Local, Path};
use crate::tracked::{Namer, Tracked};
use mlk_stale_steps::{Call, CallKind};
use mlk_syntax::Actual;
use mlk_text::{Name, push_sparing};
use std::alloc::{AllocError, Global};

// The name that is passed by reference for the formal number `index`, or `None` if a value or nothing is passed.
fn passed_name(actuals: &[Actual], index: usize) -> Option<&Name> {
    match actuals.get(index) {
        Some(Actual::ByRef(_, name)) => Some(name),
        _ => None,
    }
}

impl<'a> Path<'a> {
    // The value of `values`, the actuals, or of a local that is passed for the formal number `index`; `None` if there is none.
    fn passed_value(
        &mut self,
        namer: &mut Namer,
        call: &Call<'a>,
        values: &[Tracked],
        index: usize,
    ) -> Result<Option<Tracked>, AllocError> {
        match call.actuals.get(index) {
            Some(Actual::ByRef(_, name)) => Ok(Some(self.value_of(namer, name)?)),
            Some(Actual::Value(_)) => match values.get(index) {
                Some(value) => Ok(Some(value.clone()?)),
                None => Ok(None),
            },
            _ => Ok(None),
        }
    }

    // Takes the actuals of `call` off the stack, and returns the value that is passed for each formal.
    fn passed_values(
        &mut self,
        alloc: Global,
        namer: &mut Namer,
        call: &Call<'a>,
    ) -> Result<Vec<Option<Tracked>>, AllocError> {
        let values = self.take(alloc, call.actuals.len())?;
        let mut passed = Vec::new(alloc);
        for index in 0..call.formals.len() {
            let value = self.passed_value(namer, call, values.as_slice(), index)?;
            push_sparing(&mut passed, value)?;
        }
        Ok(passed)
    }

    /// Begins `call`, whose lines begin at the step `target`: the formals get the actuals, which are taken off the stack.
    pub(crate) fn enter(
        &mut self,
        alloc: Global,
        namer: &mut Namer,
        call: &Call<'a>,
        target: usize,
    ) -> Result<(), AllocError> {
        let passed = self.passed_values(alloc, namer, call)?;
        let frame = Frame {
            kind: call.kind,
            formals: call.formals,
            actuals: call.actuals,
            back: self.at,
            hidden: Vec::new(alloc),
            height: self.stack.len(),
            test: self.test,
        };
        push_sparing(&mut self.frames, frame)?;
        for (formal, value) in call.formals.iter().zip(passed) {
            self.hide(formal, value)?;
        }
        self.at = target;
        Ok(())
    }

    // The names that are passed by reference, each with the value of its formal.
    fn outcomes(
        &mut self,
        alloc: Global,
        namer: &mut Namer,
        formals: &'a [Name],
        actuals: &'a [Actual],
    ) -> Result<Vec<Local<'a>>, AllocError> {
        let mut outcomes = Vec::new(alloc);
        for (index, formal) in formals.iter().enumerate() {
            if let Some(name) = passed_name(actuals, index) {
                let outcome = Local {
                    name: name.as_bytes(),
                    value: Some(self.value_of(namer, formal)?),
                };
                push_sparing(&mut outcomes, outcome)?;
            }
        }
        Ok(outcomes)
    }

    // Gives each of `locals` its value, in order.
    fn replace_all(&mut self, locals: Vec<Local<'a>>) -> Result<(), AllocError> {
        for local in locals {
            let Local { name, value } = local;
            let _ = self.replace(name, value)?;
        }
        Ok(())
    }

    /// Returns from the innermost call, with `value` if it is there. Returns `false` if there is no call to return from.
    pub(crate) fn leave(
        &mut self,
        alloc: Global,
        namer: &mut Namer,
        value: Option<Tracked>,
    ) -> Result<bool, AllocError> {
        let value = namer.known_or_made(value)?;
        let Some(frame) = self.frames.pop() else {
            return Ok(false);
        };
        let Frame {
            kind,
            formals,
            actuals,
            back,
            hidden,
            height,
            test,
        } = frame;
        let outcomes = self.outcomes(alloc, namer, formals, actuals)?;
        let mut hidden = hidden;
        hidden.reverse();
        self.replace_all(hidden)?;
        self.replace_all(outcomes)?;
        self.stack.truncate(height);
        if kind == CallKind::Extrinsic {
            self.put(value)?;
        }
        if kind != CallKind::Do {
            self.test = test;
        }
        self.at = back;
        Ok(true)
    }
}
