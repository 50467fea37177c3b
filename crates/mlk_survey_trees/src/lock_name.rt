// Lock names: their roots, and whether two of them are equal.

use mlk_syntax::{Expr, Subscript, Variable};
use mlk_text::Op;

/// The root of a lock name: a local's name, or a global's without its caret.
#[derive(Clone, Copy, Drop, PartialEq, Eq, PartialOrd, Ord, Hash)]
pub enum LockRoot<'a> {
    Global(&'a [u8]),
    Local(&'a [u8]),
}

impl<'a> LockRoot<'a> {
    /// The root of the lock name `name`, or `None` if it is neither a local nor a global.
    pub fn of(name: &'a Variable) -> Option<LockRoot<'a>> {
        match &name.name {
            Expr::Local(local, _) => Some(LockRoot::Local(local.as_bytes())),
            Expr::Global(_, global, _) => Some(LockRoot::Global(global.as_bytes())),
            _ => None,
        }
    }
}

/// How two lock names compare, as far as the text shows.
#[derive(Clone, Copy, Drop, PartialEq, Eq)]
pub enum Likeness {
    /// they are surely different
    Different,
    /// they may be equal
    Perhaps,
    /// they are spelled alike
    Same,
}

// Whether two expressions without parts are spelled alike.
fn are_leaves_alike(e: &Expr, other: &Expr) -> bool {
    match (e, other) {
        (Expr::Lit(value), Expr::Lit(another)) => *value == *another,
        (Expr::Pattern(atoms), Expr::Pattern(others)) => *atoms == *others,
        (Expr::Special(special), Expr::Special(another)) => *special == *another,
        _ => false,
    }
}

// Whether two expressions are spelled alike. A `$SELECT` and a call are like nothing else.
#[cycle(alike)]
fn are_alike(e: &Expr, other: &Expr) -> bool {
    match e {
        Expr::Local(name, subscripts) => match other {
            Expr::Local(another, others) => {
                *name == *another && are_subscripts_alike(subscripts, others)
            }
            _ => false,
        },
        Expr::Global(_, name, subscripts) => match other {
            Expr::Global(_, another, others) => {
                *name == *another && are_subscripts_alike(subscripts, others)
            }
            _ => false,
        },
        Expr::Unary(op, operand) => match other {
            Expr::Unary(another, other) => *op == *another && are_alike(operand, other),
            _ => false,
        },
        Expr::Binary(first, rest) => match other {
            Expr::Binary(other, others) => {
                are_alike(first, other) && are_chains_alike(rest, others)
            }
            _ => false,
        },
        Expr::Func(function, arguments) => match other {
            Expr::Func(another, others) => {
                *function == *another && are_all_alike(arguments, others)
            }
            _ => false,
        },
        _ => are_leaves_alike(e, other),
    }
}

#[cycle(alike)]
fn are_subscripts_alike(subscripts: &[Subscript], others: &[Subscript]) -> bool {
    let mut left = others;
    for subscript in subscripts {
        let Some((other, rest)) = left.split_first() else {
            return false;
        };
        if !are_alike(&subscript.value, &other.value) {
            return false;
        }
        left = rest;
    }
    left.is_empty()
}

#[cycle(alike)]
fn are_chains_alike(chain: &[(Op, Expr)], others: &[(Op, Expr)]) -> bool {
    let mut left = others;
    for (op, operand) in chain {
        let Some(((another, other), rest)) = left.split_first() else {
            return false;
        };
        if *op != *another || !are_alike(operand, other) {
            return false;
        }
        left = rest;
    }
    left.is_empty()
}

#[cycle(alike)]
fn are_all_alike(es: &[Expr], others: &[Expr]) -> bool {
    let mut left = others;
    for e in es {
        let Some((other, rest)) = left.split_first() else {
            return false;
        };
        if !are_alike(e, other) {
            return false;
        }
        left = rest;
    }
    left.is_empty()
}

/// The subscripts of a local or a global.
pub(crate) fn subscripts_of(variable: &Variable) -> &[Subscript] {
    match &variable.name {
        Expr::Local(_, subscripts) | Expr::Global(_, _, subscripts) => subscripts.as_slice(),
        _ => &[],
    }
}

// Whether both are constants, and differ.
fn are_different_constants(subscript: &Subscript, other: &Subscript) -> bool {
    match (&subscript.value, &other.value) {
        (Expr::Lit(value), Expr::Lit(another)) => *value != *another,
        _ => false,
    }
}

// Whether two different constants are at the same index.
fn have_different_constants(subscripts: &[Subscript], others: &[Subscript]) -> bool {
    subscripts.iter().zip(others).any(|(subscript, other)| are_different_constants(
        subscript, other,
    ))
}

/// How two lock names compare, as far as the text shows.
pub fn likeness_of(name: &Variable, other: &Variable) -> Likeness {
    if LockRoot::of(name) != LockRoot::of(other) {
        return Likeness::Different;
    }
    let subscripts = subscripts_of(name);
    let others = subscripts_of(other);
    if subscripts.len() != others.len() || have_different_constants(subscripts, others) {
        return Likeness::Different;
    }
    if are_subscripts_alike(subscripts, others) {
        Likeness::Same
    } else {
        Likeness::Perhaps
    }
}
