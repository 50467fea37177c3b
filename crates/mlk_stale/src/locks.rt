// Claims and releases of locks on a path.

use crate::path::{Holding, Moment, Path};
use crate::tracked::Tracked;
use crate::walk::Walk;
use mlk_names::{KnownSym, LockTerm, Root, TermSubs};
use mlk_syntax::{Expr, LockArgument, Sign, Variable};
use mlk_text::push_sparing;
use std::alloc::{AllocError, Global};

// The root of a lock name, and the number of its subscripts; `None` if it is neither a local nor a global.
fn root_of(name: &Variable) -> Result<Option<(Root, usize)>, AllocError> {
    match &name.name {
        Expr::Local(local, subscripts) => Ok(Some((Root::Local(local.copy()?), subscripts.len()))),
        Expr::Global(_, global, subscripts) => {
            Ok(Some((Root::Global(global.copy()?), subscripts.len())))
        }
        _ => Ok(None),
    }
}

// The number of subscripts of all names of `argument`.
fn count_subscripts(argument: &LockArgument) -> usize {
    let mut count: usize = 0;
    for name in &argument.names {
        if let Expr::Local(_, subscripts) | Expr::Global(_, _, subscripts) = &name.name {
            count = count.saturating_add(subscripts.len());
        }
    }
    count
}

// The lock with the root `root` and the subscripts `values`.
fn term_of(alloc: Global, root: Root, values: &[Tracked]) -> Result<LockTerm, AllocError> {
    let mut subs = TermSubs::new(alloc);
    for value in values {
        if let Some(symbol) = value.symbol.to_known()? {
            subs.push(symbol)?;
        }
    }
    Ok(LockTerm { root, subs })
}

// The locks of `argument`. `values` are the subscripts of its names, one after another.
fn terms_of(
    alloc: Global,
    argument: &LockArgument,
    values: &[Tracked],
) -> Result<Vec<LockTerm>, AllocError> {
    let mut terms = Vec::new(alloc);
    let mut left = values;
    for name in &argument.names {
        let Some((root, count)) = root_of(name)? else {
            continue;
        };
        let (own, rest) = left.split_at(count.min(left.len()));
        push_sparing(&mut terms, term_of(alloc, root, own)?)?;
        left = rest;
    }
    Ok(terms)
}

impl<'a> Path<'a> {
    /// Takes the subscripts of the names of `argument` off the stack, and returns its locks.
    pub(crate) fn take_terms(
        &mut self,
        alloc: Global,
        argument: &LockArgument,
    ) -> Result<Vec<LockTerm>, AllocError> {
        let values = self.take(alloc, count_subscripts(argument))?;
        terms_of(alloc, argument, values.as_slice())
    }

    /// Claims `term`.
    pub(crate) fn claim(&mut self, term: LockTerm) -> Result<(), AllocError> {
        for holding in self.held.iter_mut() {
            if holding.name == term {
                holding.count = holding.count.saturating_add(1);
                return Ok(());
            }
        }
        push_sparing(
            &mut self.held,
            Holding {
                name: term,
                count: 1,
            },
        )
    }

    /// Releases `term` once.
    pub(crate) fn release(&mut self, term: &LockTerm) {
        for holding in self.held.iter_mut() {
            if holding.name == *term {
                holding.count = holding.count.saturating_sub(1);
            }
        }
        self.held.retain(|holding| holding.count > 0);
    }

    /// The locks that are held.
    pub(crate) fn held_locks(&self, alloc: Global) -> Result<Vec<LockTerm>, AllocError> {
        let mut locks = Vec::new(alloc);
        for holding in &self.held {
            push_sparing(&mut locks, holding.name.clone()?)?;
        }
        Ok(locks)
    }
}

impl<'a> Walk<'_, 'a> {
    // Adds the moment just before the held locks change.
    fn add_moment(&mut self, path: &mut Path<'a>) -> Result<(), AllocError> {
        let moment = Moment {
            reads: self.reads.len(),
            held: path.held_locks(self.alloc)?,
        };
        push_sparing(&mut path.moments, self.moments.len())?;
        push_sparing(&mut self.moments, moment)
    }

    /// Releases all locks.
    pub(crate) fn release_all(&mut self, path: &mut Path<'a>) -> Result<(), AllocError> {
        self.add_moment(path)?;
        path.held.clear();
        Ok(())
    }

    // Claims `terms`. A claim with a timeout may fail, and `$TEST` says whether it did.
    fn claim(
        &mut self,
        path: &mut Path<'a>,
        terms: Vec<LockTerm>,
        has_timeout: bool,
    ) -> Result<(), AllocError> {
        self.add_moment(path)?;
        if has_timeout {
            self.branch(path, path.at, Some(false))?;
            path.test = Some(true);
        }
        for term in terms {
            path.claim(term)?;
        }
        Ok(())
    }

    fn release(&mut self, path: &mut Path<'a>, terms: &[LockTerm]) -> Result<(), AllocError> {
        self.add_moment(path)?;
        for term in terms {
            path.release(term);
        }
        Ok(())
    }

    /// Claims or releases the locks of `argument`, whose subscripts are on the stack.
    pub(crate) fn lock(
        &mut self,
        path: &mut Path<'a>,
        argument: &'a LockArgument,
    ) -> Result<(), AllocError> {
        let terms = path.take_terms(self.alloc, argument)?;
        match argument.sign {
            Sign::Minus => self.release(path, terms.as_slice()),
            Sign::Plus => self.claim(path, terms, argument.timeout.is_some()),
            Sign::None => {
                self.release_all(path)?;
                self.claim(path, terms, argument.timeout.is_some())
            }
        }
    }
}
