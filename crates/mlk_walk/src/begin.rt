// The begin and the exits of an entry.

ghost use Rattle.std.specs.Prelude.{◌≡◌, ◌++◌, [], IfOk, OnOk, map};
ghost use Rattle.std.specs.List.{list_any};
ghost use Rattle.mlk_walk_state.specs.Cases.{holds_some};
ghost use Rattle.mlk_walk_state.specs.Scope.{scope_of};
ghost use Rattle.mlk_walk.specs.Verdicts.{own_formal, begin_case, begin_faults, need_faults, leaves_some, exit_faults, own_faults};

use mlk_calls::{Scope, in_order, is_listed};
use mlk_cert_parts::{Case, ExitCase, NameSet, Own, Shared, Summary, Test};
use mlk_names::LockTerm;
use mlk_text::{Code, Column, LineNumber, Name};
use mlk_walk_exprs::{Fault, Faults, Mend, Note};
use std::alloc::{AllocError, Global};

fn own_formals(alloc: Global, names: &[Name]) -> Result<Vec<Own>, AllocError>
    ensures { IfOk result (λ v. v.items ≡ map own_formal names.now) }
{
    let mut own = Vec::new(alloc);
    for name in names {
        own.push(Own {
            level: 1,
            names: NameSet::Only(name.copy()?),
        })?;
    }
    Ok(own)
}

// The case in which an entry begins.
fn begin_case(alloc: Global, summary: &Summary, formals: &[Name]) -> Result<Case, AllocError>
    ensures { IfOk result (λ c. c ≡ begin_case summary.now formals.now) }
{
    let names = in_order(alloc, formals)?;
    let own = own_formals(alloc, names.as_slice())?;
    Ok(Case {
        test: Test::Any,
        held: Shared::new(alloc, Vec::from_clones(alloc, summary.need.as_slice())?)?,
        own: Shared::new(alloc, own)?,
        kept: Shared::new(alloc, names.into_vec())?,
        saved: Shared::new(alloc, Vec::new(alloc))?,
    })
}

// Adds a fault if the case in which the entry begins is not listed at its line.
fn add_begin(
    alloc: Global,
    scope: &Scope,
    line: LineNumber,
    formals: &[Name],
    faults: &mut Faults,
) -> Result<(), AllocError>
    ensures { OnOk result (faults.new ≡ faults.old ++ begin_faults (scope_of scope.now) line formals.now) }
{
    let case = begin_case(alloc, scope.summary(), formals)?;
    if is_listed(scope.listed_cases(line, 0), &case) {
        return Ok(());
    }
    let fault = Fault {
        line,
        column: Column::new(1),
        code: Code::CaseNotListed,
    };
    faults.push(fault, Note::of(Mend::Listed(line, 0, case)))
}

// Adds a fault if the entry is declared and has needs.
fn add_need(scope: &Scope, line: LineNumber, faults: &mut Faults) -> Result<(), AllocError>
    ensures { OnOk result (faults.new ≡ faults.old ++ need_faults (scope_of scope.now) line) }
{
    if !scope.is_entry_declared() || scope.summary().need.as_slice().len() == 0 {
        return Ok(());
    }
    let fault = Fault {
        line,
        column: Column::new(1),
        code: Code::NeedMissing,
    };
    faults.push(fault, Note::of(Mend::Nothing))
}

fn leaves_some(exit: &ExitCase) -> bool
    ensures { result ≡ leaves_some exit.now }
{
    exit.held.as_slice().len() > 0
}

fn some_leaves(exits: &[ExitCase]) -> bool
    ensures { result ≡ list_any leaves_some exits.now }
{
    exits.iter().any(|exit| leaves_some(exit))
}

// Adds a fault if the entry is declared and an exit leaves a lock held.
fn add_exits(scope: &Scope, line: LineNumber, faults: &mut Faults) -> Result<(), AllocError>
    ensures { OnOk result (faults.new ≡ faults.old ++ exit_faults (scope_of scope.now) line) }
{
    if !scope.is_entry_declared() || !some_leaves(scope.summary().exits.as_slice()) {
        return Ok(());
    }
    let fault = Fault {
        line,
        column: Column::new(1),
        code: Code::HeldAtEnd,
    };
    faults.push(fault, Note::of(Mend::Nothing))
}

/// The faults of an entry's begin and its exits, at its line.
pub(crate) fn own_faults(
    alloc: Global,
    scope: &Scope,
    line: LineNumber,
    formals: &[Name],
) -> Result<Faults, AllocError>
    ensures { IfOk result (λ f. f ≡ own_faults (scope_of scope.now) line formals.now) }
{
    let mut faults = Faults::new(alloc);
    add_begin(alloc, scope, line, formals, &mut faults)?;
    add_need(scope, line, &mut faults)?;
    add_exits(scope, line, &mut faults)?;
    Ok(faults)
}
