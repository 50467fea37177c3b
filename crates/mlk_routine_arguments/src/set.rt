// The arguments of SET.

ghost use Rattle.std.specs.Prelude.{◌≡◌, ◌<◌, ◌≤◌, ℕ, List, length, map, Some, IfOk};
ghost use Rattle.mlk_expr.specs.declared.context.Allows.TheVariants.{NoCalls};
ghost use Rattle.mlk_syntax.specs.ExprTrees.{Tree, tree_of, trees};
ghost use Rattle.mlk_expr.specs.Grammar.{AreNext, IsExprWhere};
ghost use Rattle.mlk_expr.specs.Theorem.{ExprEnds};
ghost use Rattle.mlk_routine_arguments.specs.PartsRead.{ReadsPart, IsRefusal, byte_at};
ghost use Rattle.mlk_routine_arguments.specs.Faults.{IsFaulty};
ghost use Rattle.mlk_routine_arguments.specs.Stops.{expr_stop};
ghost use Rattle.mlk_routine_arguments.specs.Begins.{expr_begins};
ghost use Rattle.mlk_routine_arguments.specs.Ends.{AnyEnds, NextEnds, part_of, IsPartOpening, OneEnds, TargetEnds, SetEnds};
ghost use Rattle.mlk_syntax.specs.Views.{target_of, set_of};
ghost use Rattle.mlk_routine_arguments.specs.CommandGrammar.{is_part_word, in_set, IsOneOrEnclosed, IsTarget, IsSet};

use crate::fault::{leaves_out, refusal_at};
use crate::item::{Item, enclosed_items, item_list};
use crate::part::{expression, has_byte, variable};
use mlk_dialect::Dialect;
use mlk_expr::Allows;
use mlk_expr_tokens::words::{function_of, is_either, is_select};
use mlk_syntax::{Expr, Function, Part, SetArgument, Several, Target};
use mlk_text::lexeme::word_at;
use mlk_text::{Code, Failure, Fault, LeftOut};
use std::alloc::{AllocError, Global};

// What is allowed in the subscripts of a target, and in the value.
fn allowed(dialect: Dialect) -> Allows
    ensures { result ≡ in_set dialect }
{
    match dialect {
        Dialect::Standard => Allows::Everything,
        Dialect::Extended => Allows::Extended,
    }
}

/// The function of a target that `word` names, or `None`.
#[tactic(auto, unfolding(crate::specs::Ends::part_of))]
fn part_of(word: &[u8]) -> Option<Part>
    ensures { result ≡ part_of word.now }
{
    if is_either(b"P", b"PIECE", word) {
        Some(Part::Piece)
    } else if is_either(b"E", b"EXTRACT", word) {
        Some(Part::Extract)
    } else {
        None
    }
}

// Why there is no target at `at`, a `$`, where `word` follows it and `after` follows the word.
fn no_part(alloc: Global, word: &[u8], after: &[u8], at: usize) -> Failure<Fault>
    ensures refusal { IsRefusal result }
    ensures fault { (line : List ℕ) → at < length line → IsFaulty line result }
{
    let first = after.first().copied();
    if word.is_empty() {
        return match first {
            Some(b'&') => leaves_out(alloc, LeftOut::External, at),
            Some(b'$') => refusal_at(alloc, Code::ArgumentForm, at),
            _ => refusal_at(alloc, Code::ArgumentForm, at.saturating_add(1)),
        };
    }
    if first != Some(b'(') {
        return leaves_out(alloc, LeftOut::Special, at);
    }
    if matches!(function_of(word), None | Some(Function::Increment)) && !is_select(word) {
        return leaves_out(alloc, LeftOut::Function, at);
    }
    refusal_at(alloc, Code::ArgumentForm, at)
}

/// Reads the function of a target at its `$`: the function, and the byte after the opening parenthesis.
fn opening(alloc: Global, line: &[u8], at: usize) -> Result<(Part, usize), Failure<Fault>>
    requires { byte_at line.now at ≡ Some 36 }
    ensures { ReadsPart (λ part. part) IsPartOpening AnyEnds line.now at result }
{
    let (_, bytes) = line.split_at(at + 1);
    let (word, after) = word_at(bytes);
    match part_of(word) {
        Some(part) if has_byte(after, 0, b'(') => Ok((part, line.len() - after.len() + 1)),
        _ => Err(no_part(alloc, word, after, at)),
    }
}

/// An expression without calls.
#[derive(Drop)]
struct CallFree {
    value: Expr,
}

impl Item for CallFree {
    ghost Seen = { Tree };

    ghost seen = { λ item. tree_of item.value };

    ghost is = { λ d. IsExprWhere NoCalls };

    ghost ends = { ExprEnds };

    ghost stop = { expr_stop };

    ghost begin = { λ d. expr_begins NoCalls };

    fn read(
        alloc: Global,
        _dialect: Dialect,
        line: &[u8],
        at: usize,
    ) -> Result<(CallFree, usize), Failure<Fault>> {
        let (value, next) = expression(alloc, Allows::NoCalls, line, at)?;
        Ok((CallFree { value }, next))
    }
}

// The expressions of `items`, as the tree has them.
fn expressions(alloc: Global, items: Vec<CallFree>) -> Result<Vec<Expr>, AllocError>
    ensures { IfOk result (λ v. v.items ≡ map (λ item. item.value) items.items) }
{
    items.into_iter().map(|item| item.value).collect(alloc)
}

/// Reads the arguments after the variable of a target, each after a comma: the arguments, and the byte after them.
fn arguments(
    alloc: Global,
    dialect: Dialect,
    line: &[u8],
    at: usize,
) -> Result<(Vec<Expr>, usize), Failure<Fault>>
    requires { at ≤ length line.now }
    ensures { ReadsPart (λ v. trees v.items) (AreNext (IsExprWhere NoCalls)) NextEnds line.now at result }
{
    if !has_byte(line, at, b',') {
        return Ok((Vec::new(alloc), at));
    }
    let (items, next) = item_list(alloc, dialect, line, at + 1)?;
    let arguments = expressions(alloc, items)?;
    Ok((arguments, next))
}

/// Reads a target that is part of a value, at its `$`: the target, and the byte after it.
#[inline(always)]
fn part_target(
    alloc: Global,
    dialect: Dialect,
    line: &[u8],
    at: usize,
) -> Result<(Target, usize), Failure<Fault>>
    requires { byte_at line.now at ≡ Some 36 }
    ensures { ReadsPart target_of (IsTarget dialect) TargetEnds line.now at result }
{
    let (part, next) = opening(alloc, line, at)?;
    let (variable, next) = variable(alloc, Allows::NoCalls, line, next)?;
    let (arguments, next) = arguments(alloc, dialect, line, next)?;
    if !has_byte(line, next, b')') {
        return Err(refusal_at(alloc, Code::ArgumentForm, next));
    }
    let variable = Box::new(alloc, variable)?;
    Ok((Target::Part(part, variable, arguments), next + 1))
}

/// Reads a target of SET: the target, and the byte after it.
#[inline(always)]
pub(crate) fn target(
    alloc: Global,
    dialect: Dialect,
    line: &[u8],
    at: usize,
) -> Result<(Target, usize), Failure<Fault>>
    requires { at ≤ length line.now }
    ensures { ReadsPart target_of (IsTarget dialect) TargetEnds line.now at result }
{
    if has_byte(line, at, b'$') {
        return part_target(alloc, dialect, line, at);
    }
    let (whole, next) = variable(alloc, allowed(dialect), line, at)?;
    Ok((Target::Whole(whole), next))
}

// Reads a target, or several in parentheses: the targets, and the byte after them.
#[inline(always)]
fn targets(
    alloc: Global,
    dialect: Dialect,
    line: &[u8],
    at: usize,
) -> Result<(Several<Target>, usize), Failure<Fault>>
    requires { at ≤ length line.now }
    ensures { ReadsPart (λ targets. map target_of targets) (IsOneOrEnclosed (IsTarget dialect))
        (OneEnds TargetEnds (byte_at line.now at)) line.now at result }
{
    if has_byte(line, at, b'(') {
        let (targets, end) = enclosed_items(alloc, dialect, line, at)?;
        return Ok((Several::of(targets), end));
    }
    let (only, next) = target(alloc, dialect, line, at)?;
    Ok((Several::one(only), next))
}

/// Reads an argument of SET: the argument, and the byte after it.
#[inline(always)]
pub(crate) fn set(
    alloc: Global,
    dialect: Dialect,
    line: &[u8],
    at: usize,
) -> Result<(SetArgument, usize), Failure<Fault>>
    requires { at ≤ length line.now }
    ensures { ReadsPart set_of (IsSet dialect) SetEnds line.now at result }
{
    let (targets, next) = targets(alloc, dialect, line, at)?;
    if !has_byte(line, next, b'=') {
        return Err(refusal_at(alloc, Code::ArgumentForm, next));
    }
    let (value, next) = expression(alloc, allowed(dialect), line, next + 1)?;
    Ok((SetArgument { targets, value }, next))
}
