// The public readers.

ghost use Rattle.std.specs.Prelude.{◌≡◌, ◌≤◌, length, IfOk, IfErr};
ghost use Rattle.mlk_syntax.specs.ExprTrees.{tree_of, actual_trees};
ghost use Rattle.mlk_expr.specs.Grammar.{IsExprWhere, IsReferenceWhere, IsActualListWhere};
ghost use Rattle.mlk_expr.specs.Reading.{expr_in, reference_in, actual_list_in};
ghost use Rattle.mlk_text.specs.Failures.{Reads};
ghost use Rattle.mlk_expr.specs.Theorem.{ExprEnds, ReferenceEnds, ListEnds, Stands, Only, Refuses, Faults};
ghost use Rattle.mlk_expr.specs.declared.context.Allows.TheVariants.{Everything};
ghost use Rattle.mlk_expr.specs.declared.context.Passing.TheVariants.{ByReference};

use crate::context::{Allows, Context, Passing};
use crate::fault::locate;
use crate::part::global_name;
use crate::read::actuals::actuals;
use crate::read::chain;
use crate::read::names::{local, subscripts};
use crate::refusal::{Offence, Wrong, no_end, no_operand, refusal_at};
use mlk_expr_tokens::lexeme::{column_of, may_end, starts_reference};
use mlk_syntax::{Actual, Expr};
use mlk_text::lexeme::byte_of;
use mlk_text::{Failure, Fault};
use std::alloc::Global;

const DEEPEST: u8 = 64;

#[tactic(auto, unfolding(crate::specs::Reading::expr_in))]
#[inline(always)]
fn expr<'a>(
    alloc: Global,
    context: &Context,
    bytes: &'a [u8],
) -> Result<(Expr, &'a [u8]), Failure<Offence>>
    ensures { Reads (λ x. (tree_of x.0, x.1.now)) result (expr_in context.now bytes.now) }
{
    let (tree, rest) = chain(alloc, context, bytes)?;
    if !may_end(rest) {
        return Err(no_end(rest));
    }
    Ok((tree, rest))
}

#[tactic(auto, unfolding(crate::specs::Reading::reference_in))]
#[inline(always)]
fn reference<'a>(
    alloc: Global,
    context: &Context,
    bytes: &'a [u8],
) -> Result<(Expr, &'a [u8]), Failure<Offence>>
    ensures { Reads (λ x. (tree_of x.0, x.1.now)) result (reference_in context.now bytes.now) }
{
    if let Some(after) = byte_of(b'^', bytes) {
        let (name, rest) = global_name(alloc, Allows::Everything, bytes, after)?;
        let (subs, rest) = subscripts(alloc, context, rest)?;
        return Ok((
            Expr::Global(column_of(context.end, bytes), name, subs),
            rest,
        ));
    }
    if !starts_reference(bytes) {
        return Err(no_operand(bytes));
    }
    local(alloc, context, bytes)
}

#[tactic(auto, unfolding(crate::specs::Reading::actual_list_in))]
fn actual_list<'a>(
    alloc: Global,
    context: &Context,
    passing: Passing,
    bytes: &'a [u8],
) -> Result<(Vec<Actual>, &'a [u8]), Failure<Offence>>
    ensures { Reads (λ x. (actual_trees x.0.items, x.1.now)) result (actual_list_in passing context.now bytes.now) }
{
    let Some(after) = byte_of(b'(', bytes) else {
        return Err(refusal_at(Wrong::Form, bytes));
    };
    actuals(alloc, context, passing, after)
}

/// Reads the expression of the standard dialect at byte `at` of `line`: its tree, and the byte after it.
pub fn read_expr(alloc: Global, line: &[u8], at: usize) -> Result<(Expr, usize), Failure<Fault>>
    requires { at ≤ length line.now }
    ensures found { IfOk result (λ r. Stands (IsExprWhere Everything) ExprEnds line.now at (tree_of r.0) r.1) }
    ensures only { IfOk result (λ r. Only (IsExprWhere Everything) ExprEnds line.now at (tree_of r.0) r.1) }
    ensures refused { IfErr result (λ e. Refuses (IsExprWhere Everything) ExprEnds line.now at e) }
    ensures fault { IfErr result (λ e. Faults ByReference line.now at e) }
{
    read_expr_where(alloc, Allows::Everything, line, at)
}

/// Reads an expression in which only `allows` is allowed.
#[inline(always)]
pub fn read_expr_where(
    alloc: Global,
    allows: Allows,
    line: &[u8],
    at: usize,
) -> Result<(Expr, usize), Failure<Fault>>
    requires { at ≤ length line.now }
    ensures found { IfOk result (λ r. Stands (IsExprWhere allows) ExprEnds line.now at (tree_of r.0) r.1) }
    ensures only { IfOk result (λ r. Only (IsExprWhere allows) ExprEnds line.now at (tree_of r.0) r.1) }
    ensures refused { IfErr result (λ e. Refuses (IsExprWhere allows) ExprEnds line.now at e) }
    ensures fault { IfErr result (λ e. Faults ByReference line.now at e) }
{
    let (_, bytes) = line.split_at(at);
    let context = Context {
        end: line.len() + 1,
        left: DEEPEST,
        allows,
    };
    match expr(alloc, &context, bytes) {
        Ok((tree, rest)) => Ok((tree, line.len() - rest.len())),
        Err(refusal) => Err(locate(alloc, Passing::ByReference, line, at, refusal)),
    }
}

/// Reads the local or global with its subscripts at byte `at` of `line`: its tree, and the byte after it.
pub fn read_ref(alloc: Global, line: &[u8], at: usize) -> Result<(Expr, usize), Failure<Fault>>
    requires { at ≤ length line.now }
    ensures found { IfOk result (λ r. Stands (IsReferenceWhere Everything) ReferenceEnds line.now at (tree_of r.0) r.1) }
    ensures only { IfOk result (λ r. Only (IsReferenceWhere Everything) ReferenceEnds line.now at (tree_of r.0) r.1) }
    ensures refused { IfErr result (λ e. Refuses (IsReferenceWhere Everything) ReferenceEnds line.now at e) }
    ensures fault { IfErr result (λ e. Faults ByReference line.now at e) }
{
    read_ref_where(alloc, Allows::Everything, line, at)
}

/// Reads a local or global in whose subscripts only `allows` is allowed.
#[inline(always)]
pub fn read_ref_where(
    alloc: Global,
    allows: Allows,
    line: &[u8],
    at: usize,
) -> Result<(Expr, usize), Failure<Fault>>
    requires { at ≤ length line.now }
    ensures found { IfOk result (λ r. Stands (IsReferenceWhere allows) ReferenceEnds line.now at (tree_of r.0) r.1) }
    ensures only { IfOk result (λ r. Only (IsReferenceWhere allows) ReferenceEnds line.now at (tree_of r.0) r.1) }
    ensures refused { IfErr result (λ e. Refuses (IsReferenceWhere allows) ReferenceEnds line.now at e) }
    ensures fault { IfErr result (λ e. Faults ByReference line.now at e) }
{
    let (_, bytes) = line.split_at(at);
    let context = Context {
        end: line.len() + 1,
        left: DEEPEST - 1,
        allows,
    };
    match reference(alloc, &context, bytes) {
        Ok((tree, rest)) => Ok((tree, line.len() - rest.len())),
        Err(refusal) => Err(locate(alloc, Passing::ByReference, line, at, refusal)),
    }
}

/// Reads the actual list at byte `at` of `line`: the actuals, and the byte after it.
pub fn read_actuals(
    alloc: Global,
    line: &[u8],
    at: usize,
) -> Result<(Vec<Actual>, usize), Failure<Fault>>
    requires { at ≤ length line.now }
    ensures found { IfOk result (λ r. Stands (IsActualListWhere Everything ByReference) ListEnds line.now at (actual_trees r.0.items) r.1) }
    ensures only { IfOk result (λ r. Only (IsActualListWhere Everything ByReference) ListEnds line.now at (actual_trees r.0.items) r.1) }
    ensures refused { IfErr result (λ e. Refuses (IsActualListWhere Everything ByReference) ListEnds line.now at e) }
    ensures fault { IfErr result (λ e. Faults ByReference line.now at e) }
{
    read_actuals_where(alloc, Allows::Everything, Passing::ByReference, line, at)
}

/// Reads an actual list in which only `allows` is allowed, whose actuals are passed as `passing` says.
pub fn read_actuals_where(
    alloc: Global,
    allows: Allows,
    passing: Passing,
    line: &[u8],
    at: usize,
) -> Result<(Vec<Actual>, usize), Failure<Fault>>
    requires { at ≤ length line.now }
    ensures found { IfOk result
        (λ r. Stands (IsActualListWhere allows passing) ListEnds line.now at (actual_trees r.0.items) r.1) }
    ensures only { IfOk result
        (λ r. Only (IsActualListWhere allows passing) ListEnds line.now at (actual_trees r.0.items) r.1) }
    ensures refused { IfErr result (λ e. Refuses (IsActualListWhere allows passing) ListEnds line.now at e) }
    ensures fault { IfErr result (λ e. Faults passing line.now at e) }
{
    let (_, bytes) = line.split_at(at);
    let context = Context {
        end: line.len() + 1,
        left: DEEPEST - 1,
        allows,
    };
    match actual_list(alloc, &context, passing, bytes) {
        Ok((given, rest)) => Ok((given, line.len() - rest.len())),
        Err(refusal) => Err(locate(alloc, passing, line, at, refusal)),
    }
}
