// The readers of names, labels and callees, as they occur in commands.

ghost use Rattle.std.specs.Prelude.{◌≡◌, ◌≤◌, length, IfOk, IfErr};
ghost use Rattle.mlk_expr.specs.declared.context.Passing.TheVariants.{ByReference};
ghost use Rattle.mlk_expr.specs.Grammar.{IsNameText, IsLabelText, IsCalleeText};
ghost use Rattle.mlk_expr.specs.Theorem.{LabelEnds, CalleeEnds, Stands, Only, Refuses, Faults};

use crate::context::Passing;
use crate::fault::locate;
use crate::part::{callee, label, plain_name};
use mlk_syntax::Callee;
use mlk_text::{Failure, Fault, Name};
use std::alloc::Global;

/// Reads the name at byte `at` of `line`: the name, and the byte after it.
pub fn read_name(alloc: Global, line: &[u8], at: usize) -> Result<(Name, usize), Failure<Fault>>
    requires { at ≤ length line.now }
    ensures found { IfOk result (λ r. Stands IsNameText LabelEnds line.now at r.0 r.1) }
    ensures only { IfOk result (λ r. Only IsNameText LabelEnds line.now at r.0 r.1) }
    ensures refused { IfErr result (λ e. Refuses IsNameText LabelEnds line.now at e) }
    ensures fault { IfErr result (λ e. Faults ByReference line.now at e) }
{
    let (_, bytes) = line.split_at(at);
    match plain_name(alloc, bytes) {
        Ok((name, rest)) => Ok((name, line.len() - rest.len())),
        Err(refusal) => Err(locate(alloc, Passing::ByReference, line, at, refusal)),
    }
}

/// Reads the label, a name or digits, at byte `at` of `line`: the label, and the byte after it.
pub fn read_label(alloc: Global, line: &[u8], at: usize) -> Result<(Name, usize), Failure<Fault>>
    requires { at ≤ length line.now }
    ensures found { IfOk result (λ r. Stands IsLabelText LabelEnds line.now at r.0 r.1) }
    ensures only { IfOk result (λ r. Only IsLabelText LabelEnds line.now at r.0 r.1) }
    ensures refused { IfErr result (λ e. Refuses IsLabelText LabelEnds line.now at e) }
    ensures fault { IfErr result (λ e. Faults ByReference line.now at e) }
{
    let (_, bytes) = line.split_at(at);
    match label(alloc, bytes) {
        Ok((label, rest)) => Ok((label, line.len() - rest.len())),
        Err(refusal) => Err(locate(alloc, Passing::ByReference, line, at, refusal)),
    }
}

/// Reads the callee at byte `at` of `line`: the callee, and the byte after it.
pub fn read_callee(alloc: Global, line: &[u8], at: usize) -> Result<(Callee, usize), Failure<Fault>>
    requires { at ≤ length line.now }
    ensures found { IfOk result (λ r. Stands IsCalleeText CalleeEnds line.now at r.0 r.1) }
    ensures only { IfOk result (λ r. Only IsCalleeText CalleeEnds line.now at r.0 r.1) }
    ensures refused { IfErr result (λ e. Refuses IsCalleeText CalleeEnds line.now at e) }
    ensures fault { IfErr result (λ e. Faults ByReference line.now at e) }
{
    let (_, bytes) = line.split_at(at);
    match callee(alloc, bytes) {
        Ok((callee, rest)) => Ok((callee, line.len() - rest.len())),
        Err(refusal) => Err(locate(alloc, Passing::ByReference, line, at, refusal)),
    }
}
