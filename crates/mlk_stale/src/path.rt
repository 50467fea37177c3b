// Paths: what is known on one way through the steps.

use crate::tracked::{Namer, Tracked};
use mlk_names::{Access, LockTerm, Reference, ReferenceSubs};
use mlk_stale_steps::{CallKind, Use};
use mlk_syntax::Actual;
use mlk_text::{Name, push_sparing};
use std::alloc::{AllocError, Global};
use std::mem;

/// A local with its value.
#[derive(Clone, Drop)]
pub(crate) struct Local<'a> {
    pub(crate) name: &'a [u8],
    /// `None` if it is not defined, or if it has not been used yet
    pub(crate) value: Option<Tracked>,
}

/// A call that has not returned.
#[derive(Clone, Drop)]
pub(crate) struct Frame<'a> {
    pub(crate) kind: CallKind,
    pub(crate) formals: &'a [Name],
    pub(crate) actuals: &'a [Actual],
    /// the index of the step after the call
    pub(crate) back: usize,
    /// the locals that are hidden by its formals and its NEWs, in the order in which they were hidden
    pub(crate) hidden: Vec<Local<'a>>,
    /// the number of values on the stack below it
    pub(crate) height: usize,
    /// `$TEST` when it was called
    pub(crate) test: Option<bool>,
}

/// A name that is held, and how often it was claimed.
#[derive(Clone, Drop)]
pub(crate) struct Holding {
    pub(crate) name: LockTerm,
    pub(crate) count: usize,
}

/// A moment just before the held locks change.
#[derive(Drop)]
pub(crate) struct Moment {
    /// the number of reads that were made before it
    pub(crate) reads: usize,
    /// the locks that are held at it
    pub(crate) held: Vec<LockTerm>,
}

/// What is known on a path before its next step.
#[derive(Clone, Drop)]
pub(crate) struct Path<'a> {
    /// the index of the next step
    pub(crate) at: usize,
    pub(crate) stack: Vec<Tracked>,
    pub(crate) locals: Vec<Local<'a>>,
    pub(crate) held: Vec<Holding>,
    /// the numbers of the reads made so far
    pub(crate) reads: Vec<usize>,
    /// the numbers of the moments just before the held locks changed
    pub(crate) moments: Vec<usize>,
    /// `$TEST`, if it is known
    pub(crate) test: Option<bool>,
    /// for each FOR that the path is in, whether this is a later round than the first
    pub(crate) rounds: Vec<bool>,
    pub(crate) frames: Vec<Frame<'a>>,
}

impl<'a> Path<'a> {
    /// A path that begins at the step `at`: nothing is held, and nothing is known.
    pub(crate) fn new(alloc: Global, at: usize) -> Path<'a> {
        Path {
            at,
            stack: Vec::new(alloc),
            locals: Vec::new(alloc),
            held: Vec::new(alloc),
            reads: Vec::new(alloc),
            moments: Vec::new(alloc),
            test: None,
            rounds: Vec::new(alloc),
            frames: Vec::new(alloc),
        }
    }

    /// Puts a value on the stack.
    pub(crate) fn put(&mut self, value: Tracked) -> Result<(), AllocError> {
        push_sparing(&mut self.stack, value)
    }

    /// Takes `count` values off the stack, and returns them in the order in which they were put there.
    pub(crate) fn take(&mut self, alloc: Global, count: usize) -> Result<Vec<Tracked>, AllocError> {
        let mut taken = Vec::new(alloc);
        for _ in 0..count {
            if let Some(value) = self.stack.pop() {
                push_sparing(&mut taken, value)?;
            }
        }
        taken.reverse();
        Ok(taken)
    }

    /// Removes `count` values from the stack.
    pub(crate) fn discard(&mut self, count: usize) {
        let left = self.stack.len().saturating_sub(count);
        self.stack.truncate(left);
    }

    /// The reference of the use at `place`, whose subscripts are taken off the stack.
    pub(crate) fn take_reference(
        &mut self,
        alloc: Global,
        place: &Use<'a>,
        access: Access,
    ) -> Result<Reference, AllocError> {
        let mut subs = ReferenceSubs::new(alloc);
        for value in self.take(alloc, place.count)? {
            let Tracked { symbol, .. } = value;
            subs.push(symbol)?;
        }
        Ok(Reference {
            root: place.global.copy()?,
            subs,
            extent: place.extent,
            access,
        })
    }

    // The index of the local `name`, which is added if it is missing.
    fn local_index(&mut self, name: &'a [u8]) -> Result<usize, AllocError> {
        if let Some(index) = self.locals.iter().position(|local| local.name == name) {
            return Ok(index);
        }
        let index = self.locals.len();
        push_sparing(&mut self.locals, Local { name, value: None })?;
        Ok(index)
    }

    /// Gives the local `name` a value, and returns the one that it had.
    pub(crate) fn replace(
        &mut self,
        name: &'a [u8],
        value: Option<Tracked>,
    ) -> Result<Option<Tracked>, AllocError> {
        let index = self.local_index(name)?;
        match self.locals.get_mut(index) {
            Some(local) => Ok(mem::replace(&mut local.value, value)),
            None => Ok(None),
        }
    }

    /// The value of the local `name`, which gets a symbol if it has none yet.
    pub(crate) fn value_of(
        &mut self,
        namer: &mut Namer,
        name: &'a Name,
    ) -> Result<Tracked, AllocError> {
        let known = self.replace(name.as_bytes(), None)?;
        let value = namer.known_or_made(known)?;
        let copy = value.clone()?;
        let _ = self.replace(name.as_bytes(), Some(value))?;
        Ok(copy)
    }

    /// Hides the local `name` until the innermost call returns.
    pub(crate) fn hide(
        &mut self,
        name: &'a Name,
        value: Option<Tracked>,
    ) -> Result<(), AllocError> {
        let name = name.as_bytes();
        let old = self.replace(name, value)?;
        if let Some(frame) = self.frames.last_mut() {
            push_sparing(&mut frame.hidden, Local { name, value: old })?;
        }
        Ok(())
    }
}
