// Lock names, as written in a routine.

use crate::word::{Word, Words};
use mlk_syntax::{Expr, Special, Subscript, Variable};
use mlk_text::push_sparing;
use std::alloc::{AllocError, Global};

/// What is known of a subscript's value.
#[derive(Clone, Copy, Drop, PartialEq, Eq, PartialOrd, Ord, Hash)]
pub enum Symbol {
    /// a constant
    Constant(Word),
    /// the value of a local
    Local(Word),
    /// the number of the job
    Job,
    /// nothing
    Unknown,
}

impl Symbol {
    /// The symbol of `e`: `Unknown`, unless it is a literal, a local without subscripts, or `$JOB`. Adds its words to `words`.
    pub(crate) fn of<'a>(words: &mut Words<'a>, e: &'a Expr) -> Result<Symbol, AllocError> {
        match e {
            Expr::Lit(value) => Ok(Symbol::Constant(words.add(value.as_bytes())?)),
            Expr::Local(name, subscripts) if subscripts.is_empty() => {
                Ok(Symbol::Local(words.add(name.as_bytes())?))
            }
            Expr::Special(Special::Job) => Ok(Symbol::Job),
            _ => Ok(Symbol::Unknown),
        }
    }

    /// The symbols of `subscripts`, in order. Adds their words to `words`.
    pub(crate) fn all_of<'a>(
        alloc: Global,
        words: &mut Words<'a>,
        subscripts: &'a [Subscript],
    ) -> Result<Vec<Symbol>, AllocError> {
        let mut symbols = Vec::new(alloc);
        for subscript in subscripts {
            let symbol = Symbol::of(words, &subscript.value)?;
            push_sparing(&mut symbols, symbol)?;
        }
        Ok(symbols)
    }
}

/// The root of a lock name: a global's name without its caret, or a local's.
#[derive(Clone, Copy, Drop, PartialEq, Eq, PartialOrd, Ord, Hash)]
pub enum LockRoot {
    Global(Word),
    Local(Word),
}

/// A lock name, with what is known of its subscripts.
#[derive(Clone, Drop, PartialEq, Eq, Hash)]
pub struct LockName {
    pub root: LockRoot,
    pub subscripts: Vec<Symbol>,
}

impl LockName {
    /// The lock name of `variable`; `None` if it is neither a local nor a global. Adds its words to `words`.
    pub(crate) fn of<'a>(
        alloc: Global,
        words: &mut Words<'a>,
        variable: &'a Variable,
    ) -> Result<Option<LockName>, AllocError> {
        match &variable.name {
            Expr::Local(name, subscripts) => Ok(Some(LockName {
                root: LockRoot::Local(words.add(name.as_bytes())?),
                subscripts: Symbol::all_of(alloc, words, subscripts)?,
            })),
            Expr::Global(_, name, subscripts) => Ok(Some(LockName {
                root: LockRoot::Global(words.add(name.as_bytes())?),
                subscripts: Symbol::all_of(alloc, words, subscripts)?,
            })),
            _ => Ok(None),
        }
    }
}
