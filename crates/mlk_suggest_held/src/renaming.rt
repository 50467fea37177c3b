// Lock names at another place: those of a callee in its caller, those of a caller in its callee, and after a change of locals.

use mlk_suggest_steps::{LockName, LockRoot, Symbol, Word};
use mlk_text::push_sparing;
use std::alloc::{AllocError, Global};

/// A renaming of the subscripts of lock names.
#[derive(Clone, Copy, Drop)]
pub enum Renaming<'r> {
    /// these locals have changed, so subscripts that are one of them become unknown
    Forget(&'r [Word]),
    /// all locals have changed
    ForgetAll,
    /// from a callee with these formals to its caller, which passes these actuals
    ToCaller(&'r [Word], &'r [Symbol]),
    /// from a caller to its callee with these formals: a subscript that is one of these actuals becomes its formal
    ByFormals(&'r [Word], &'r [Symbol]),
    /// from a caller to its callee with these formals: subscripts are kept, except for locals that a formal hides
    BesideFormals(&'r [Word]),
}

// The index of a word among others, or `None`.
fn place_of(words: &[Word], word: Word) -> Option<usize> {
    words.iter().position(|other| *other == word)
}

// The symbol of a caller for a local of its callee.
fn in_caller(formals: &[Word], actuals: &[Symbol], word: Word) -> Symbol {
    match place_of(formals, word) {
        None => Symbol::Local(word),
        Some(place) => actuals.get(place).copied().unwrap_or(Symbol::Unknown),
    }
}

// The symbol of a callee for a symbol of its caller that is not passed: a formal hides a local of its name.
fn beside_formals(formals: &[Word], symbol: Symbol) -> Symbol {
    match symbol {
        Symbol::Local(word) if formals.contains(&word) => Symbol::Unknown,
        _ => symbol,
    }
}

// The symbol of a callee for a symbol of its caller: the formal to which it is passed, if there is one.
fn by_formals(formals: &[Word], actuals: &[Symbol], symbol: Symbol) -> Symbol {
    if !matches!(symbol, Symbol::Local(_) | Symbol::Constant(_)) {
        return symbol;
    }
    let Some(place) = actuals.iter().position(|actual| *actual == symbol) else {
        return beside_formals(formals, symbol);
    };
    match formals.get(place) {
        Some(formal) => Symbol::Local(*formal),
        None => beside_formals(formals, symbol),
    }
}

impl<'r> Renaming<'r> {
    // Applies the renaming to a symbol.
    fn of_symbol(self, symbol: Symbol) -> Symbol {
        match (self, symbol) {
            (Renaming::Forget(words), Symbol::Local(word)) if words.contains(&word) => {
                Symbol::Unknown
            }
            (Renaming::ForgetAll, Symbol::Local(_)) => Symbol::Unknown,
            (Renaming::ToCaller(formals, actuals), Symbol::Local(word)) => {
                in_caller(formals, actuals, word)
            }
            (Renaming::ByFormals(formals, actuals), _) => by_formals(formals, actuals, symbol),
            (Renaming::BesideFormals(formals), _) => beside_formals(formals, symbol),
            _ => symbol,
        }
    }

    /// Whether the renaming keeps `name` unchanged.
    pub fn keeps(self, name: &LockName) -> bool {
        name.subscripts
            .iter()
            .all(|symbol| self.of_symbol(*symbol) == *symbol)
    }

    /// Applies the renaming to `name`.
    pub fn of_name(self, alloc: Global, name: &LockName) -> Result<LockName, AllocError> {
        let mut subscripts = Vec::new(alloc);
        for symbol in &name.subscripts {
            push_sparing(&mut subscripts, self.of_symbol(*symbol))?;
        }
        Ok(LockName {
            root: name.root,
            subscripts,
        })
    }
}

// Whether two symbols may have the same value, as far as the text shows.
fn may_be_one(symbol: Symbol, other: Symbol) -> bool {
    symbol == other || symbol == Symbol::Unknown || other == Symbol::Unknown
}

/// Whether `name` and `other` are written alike, except for unknown subscripts.
pub fn are_alike(name: &LockName, other: &LockName) -> bool {
    name.root == other.root
        && name.subscripts.len() == other.subscripts.len()
        && name
            .subscripts
            .iter()
            .zip(&other.subscripts)
            .all(|(symbol, another)| may_be_one(*symbol, *another))
}

/// Whether `name` is surely the name with `root` and `subscripts`, or above it.
pub fn is_above(name: &LockName, root: LockRoot, subscripts: &[Symbol]) -> bool {
    name.root == root
        && name.subscripts.len() <= subscripts.len()
        && name.subscripts.iter().zip(subscripts).all(|(symbol, another)| symbol == another
            && *symbol != Symbol::Unknown)
}
