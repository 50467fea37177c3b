// The labels of stubs, collected from routines.

use crate::call::{Call, line_calls};
use crate::label::{LabelUse, StubLabel};
use crate::scope::Scope;
use mlk_suggest_read::PartlyRead;
use mlk_syntax::{Line, Routine};
use mlk_text::push_sparing;
use std::alloc::{AllocError, Global};
use std::collections::BTreeMap;

/// The labels of stubs, and what each is for. Each stub has a first line.
#[derive(Drop)]
pub(crate) struct Collection<'a> {
    alloc: Global,
    pub(crate) labels: BTreeMap<StubLabel<'a>, LabelUse<'a>>,
}

impl<'a> Collection<'a> {
    // Adds a label, unless it is there.
    fn add_label(&mut self, label: StubLabel<'a>, used: LabelUse<'a>) -> Result<(), AllocError> {
        if self.labels.contains_key(&label) {
            return Ok(());
        }
        self.labels.insert(label, used)?;
        Ok(())
    }

    // Adds the first line of a stub, unless it is there.
    fn begin(&mut self, routine: &'a [u8]) -> Result<(), AllocError> {
        let used = LabelUse::new(self.alloc, None);
        self.add_label(StubLabel::first(routine), used)
    }

    // Adds the labels of a routine whose stub takes its place.
    fn add_routine(&mut self, routine: &'a Routine) -> Result<(), AllocError> {
        let name = routine.name.as_bytes();
        for (index, line) in routine.lines.iter().enumerate() {
            let label = line.label.as_ref();
            if index == 0 || label.is_some() {
                let formals = match line.formals.as_ref() {
                    None => None,
                    Some(formals) => Some(formals.as_slice()),
                };
                let used = LabelUse::new(self.alloc, formals);
                self.add_label(StubLabel::of(name, label), used)?;
            }
        }
        Ok(())
    }

    // Takes out what a label is for.
    fn take(&mut self, label: &StubLabel<'a>) -> LabelUse<'a> {
        match self.labels.remove(label) {
            Some(used) => used,
            None => LabelUse::new(self.alloc, None),
        }
    }

    // Adds the calls in a line, without those in its block, that call routines which get a stub.
    fn add_line(
        &mut self,
        scope: &Scope<'a>,
        routine: &'a [u8],
        line: &'a Line,
    ) -> Result<(), AllocError> {
        for call in line_calls(self.alloc, routine, line)? {
            let called = match &call.callee.routine {
                None => routine,
                Some(name) => name.as_bytes(),
            };
            if !scope.has(called) {
                continue;
            }
            self.begin(called)?;
            let label = StubLabel::of(called, call.callee.label.as_ref());
            let mut used = self.take(&label);
            push_sparing(&mut used.calls, call)?;
            self.labels.insert(label, used)?;
        }
        Ok(())
    }

    // Adds the calls in lines and their blocks.
    fn add_lines(
        &mut self,
        scope: &Scope<'a>,
        routine: &'a [u8],
        lines: &'a [Line],
    ) -> Result<(), AllocError> {
        for line in lines {
            self.add_line(scope, routine, line)?;
            self.add_lines(scope, routine, line.block.as_slice())?;
        }
        Ok(())
    }
}

/// The labels of the stubs in `scope`, for the routines that were read.
pub(crate) fn collection_of<'a>(
    alloc: Global,
    read: &'a PartlyRead,
    scope: &Scope<'a>,
) -> Result<Collection<'a>, AllocError> {
    let mut collection = Collection {
        alloc,
        labels: BTreeMap::new(alloc),
    };
    for routine in &read.routines {
        if scope.replaces(routine.name.as_bytes()) {
            collection.add_routine(routine)?;
        }
    }
    for name in scope.replaced.iter() {
        collection.begin(*name)?;
    }
    for routine in &read.routines {
        let name = routine.name.as_bytes();
        if !scope.replaces(name) {
            collection.add_lines(scope, name, routine.lines.as_slice())?;
        }
    }
    Ok(collection)
}
