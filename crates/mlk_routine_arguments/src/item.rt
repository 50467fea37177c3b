// The items of lists that are separated by commas, and such lists.

ghost use Rattle.std.specs.Prelude.{◌≡◌, ◌≤◌, ℕ, List, length, map, Some, true, false};
ghost use Rattle.mlk_routine_arguments.specs.PartsRead.{ReadsPart, byte_at};
ghost use Rattle.mlk_routine_arguments.specs.Stops.{expr_stop, name_stop};
ghost use Rattle.mlk_routine_arguments.specs.Begins.{expr_begins, name_begins};
ghost use Rattle.mlk_routine_arguments.specs.Ends.{AreEnded, AnyEnds, Begins, OneEnds};
ghost use Rattle.mlk_routine_arguments.specs.CommandGrammar.{AreEnclosed, IsOneOrEnclosed};
ghost use Rattle.mlk_expr.specs.Grammar.{IsList, IsExprWhere, IsNameText};
ghost use Rattle.mlk_syntax.specs.ExprTrees.{Tree, tree_of};
ghost use Rattle.mlk_expr.specs.Theorem.{ExprEnds, LabelEnds};
ghost use Rattle.mlk_expr.specs.declared.context.Allows.TheVariants.{Everything};

use crate::fault::refusal_at;
use crate::part::{expression, has_byte, name};
use mlk_dialect::Dialect;
use mlk_expr::Allows;
use mlk_syntax::Expr;
use mlk_text::{Code, Failure, Fault, Name, drop_and_return, make_room};
use std::alloc::Global;

/// An item of a list that is separated by commas.
pub trait Item: Drop {
    ghost use Rattle.std.specs.Prelude.{ℕ, List, ◌≡◌, true, false};
    ghost use Rattle.mlk_dialect.specs.declared.dialect.Dialect.{Dialect};
    ghost use Rattle.mlk_expr.specs.Grammar.{Spelled};
    ghost use Rattle.mlk_routine_arguments.specs.Ends.{is_stop};

    /// What contracts see of the item, how it is written in a dialect, and what may follow it.
    ghost Seen: { Type 0 };

    ghost seen: { Self → Seen };

    ghost is: { Dialect → ℕ → Seen → List ℕ → Type 0 };

    ghost ends: { Seen → List ℕ → Type 0 };

    /// It may be followed by the line's end, a space, a comma, a closing parenthesis and a comment.
    ghost stop: { (a : Seen) (rest : List ℕ) → is_stop rest ≡ true → ends a rest };

    /// No item begins with one of these.
    ghost begin: { (d : Dialect) (k : ℕ) (a : Seen) (s : List ℕ) → is d k a s → is_stop s ≡ false };

    fn read(
        alloc: Global,
        dialect: Dialect,
        line: &[u8],
        at: usize,
    ) -> Result<(Self, usize), Failure<Fault>>
        requires { at ≤ length line.now }
        ensures { ReadsPart seen (is dialect) ends line.now at result };
}

impl Item for Expr {
    ghost Seen = { Tree };

    ghost seen = { tree_of };

    ghost is = { λ d. IsExprWhere Everything };

    ghost ends = { ExprEnds };

    ghost stop = { expr_stop };

    ghost begin = { λ d. expr_begins Everything };

    fn read(
        alloc: Global,
        _dialect: Dialect,
        line: &[u8],
        at: usize,
    ) -> Result<(Expr, usize), Failure<Fault>> {
        expression(alloc, Allows::Everything, line, at)
    }
}

/// Reads one or more items separated by commas: the items, and the byte after them.
pub(crate) fn item_list<T: Item>(
    alloc: Global,
    dialect: Dialect,
    line: &[u8],
    at: usize,
) -> Result<(Vec<T>, usize), Failure<Fault>>
    requires { at ≤ length line.now }
    ensures { ReadsPart (λ v. map T.seen v.items) (IsList (T.is dialect)) (AreEnded T.ends) line.now at result }
{
    let (first, mut next) = T::read(alloc, dialect, line, at)?;
    let room = if has_byte(line, next, b',') { 2 } else { 1 };
    let Ok(mut items) = Vec::with_capacity(alloc, room) else {
        return Err(drop_and_return(first, Failure::OutOfMemory));
    };
    items.push_reserved(first);
    while has_byte(line, next, b',') {
        make_room(&mut items)?;
        let (item, end) = T::read(alloc, dialect, line, next + 1)?;
        items.push_reserved(item);
        next = end;
    }
    Ok((items, next))
}

/// Reads items in parentheses, whose opening one is at `at`: the items, and the byte after the closing one.
#[inline(always)]
pub(crate) fn enclosed_items<T: Item>(
    alloc: Global,
    dialect: Dialect,
    line: &[u8],
    at: usize,
) -> Result<(Vec<T>, usize), Failure<Fault>>
    requires within { at ≤ length line.now }
    requires open { byte_at line.now at ≡ Some 40 }
    ensures { ReadsPart (λ v. map T.seen v.items) (AreEnclosed (T.is dialect)) AnyEnds line.now at result }
{
    let (items, end) = item_list(alloc, dialect, line, at + 1)?;
    if !has_byte(line, end, b')') {
        return Err(refusal_at(alloc, Code::ArgumentForm, end));
    }
    Ok((items, end + 1))
}

impl Item for Name {
    ghost use Rattle.std.specs.Prelude.{ℕ, List};

    ghost Seen = { List ℕ };

    ghost seen = { λ n. n };

    ghost is = { λ d. IsNameText };

    ghost ends = { LabelEnds };

    ghost stop = { name_stop };

    ghost begin = { λ d. name_begins };

    fn read(
        alloc: Global,
        _dialect: Dialect,
        line: &[u8],
        at: usize,
    ) -> Result<(Name, usize), Failure<Fault>> {
        name(alloc, line, at)
    }
}

/// Reads one item, or several in parentheses: the items, and the byte after them. No item begins with a parenthesis.
pub(crate) fn one_or_enclosed<T: Item>(
    alloc: Global,
    dialect: Dialect,
    line: &[u8],
    at: usize,
) -> Result<(Vec<T>, usize), Failure<Fault>>
    requires within { at ≤ length line.now }
    requires shut { (k : ℕ) (a : T.Seen) (s : List ℕ) → T.is dialect k a s → Begins s }
    ensures { ReadsPart (λ v. map T.seen v.items) (IsOneOrEnclosed (T.is dialect))
        (OneEnds T.ends (byte_at line.now at)) line.now at result }
{
    if has_byte(line, at, b'(') {
        return enclosed_items(alloc, dialect, line, at);
    }
    let (item, next) = T::read(alloc, dialect, line, at)?;
    let mut items = Vec::with_capacity(alloc, 1)?;
    items.push_reserved(item);
    Ok((items, next))
}
