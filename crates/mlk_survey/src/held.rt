// Locks that are held, judged from the text.

use mlk_survey_trees::{Likeness, Mention, MentionAt, likeness_of};
use mlk_syntax::{LockArgument, Sign, Variable};
use mlk_text::push_sparing;
use std::alloc::{AllocError, Global};

// The maximum number of claims that are tracked: as many as a case of a certificate can list.
const MOST_HELD: usize = 16;

/// The names that are claimed and not yet released, in the order of the text.
#[derive(Drop)]
pub(crate) struct Held<'a> {
    names: Vec<&'a Variable>,
}

impl<'a> Held<'a> {
    /// No names.
    pub(crate) fn new(alloc: Global) -> Held<'a> {
        Held {
            names: Vec::new(alloc),
        }
    }

    /// The held names.
    pub(crate) fn names(&self) -> &[&'a Variable] {
        self.names.as_slice()
    }

    // Adds a name, if necessary in place of the one that is held longest.
    fn add_name(&mut self, name: &'a Variable) -> Result<(), AllocError> {
        if self.names.len() >= MOST_HELD {
            self.names.remove(0);
        }
        push_sparing(&mut self.names, name)
    }

    // Adds the names of one argument.
    fn hold_all(&mut self, names: &'a [Variable]) -> Result<(), AllocError> {
        for name in names {
            self.add_name(name)?;
        }
        Ok(())
    }

    // Removes the names that are spelled like one of `names`.
    fn release(&mut self, names: &[Variable]) {
        for name in names {
            self.names
                .retain(|held| likeness_of(held, name) != Likeness::Same);
        }
    }

    // Applies an argument of LOCK.
    fn lock(&mut self, argument: &'a LockArgument) -> Result<(), AllocError> {
        let names = argument.names.as_slice();
        match argument.sign {
            Sign::None => {
                self.names.clear();
                self.hold_all(names)
            }
            Sign::Plus => self.hold_all(names),
            Sign::Minus => {
                self.release(names);
                Ok(())
            }
        }
    }

    /// Applies a mention. A label forgets everything that was claimed before it.
    pub(crate) fn apply_mention(&mut self, at: &MentionAt<'a>) -> Result<(), AllocError> {
        match at.mention {
            Mention::Begin | Mention::Unlock => {
                self.names.clear();
                Ok(())
            }
            Mention::Lock(argument) => self.lock(argument),
            Mention::Touch(_) | Mention::Call(_, _) | Mention::Job(_) | Mention::SkippedCall(_) =>
                Ok(()),
        }
    }
}
