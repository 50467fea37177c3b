// Linking routines into a program.

ghost use Rattle.std.specs.Prelude.{◌≡◌, flat_map, IfOk, OnOk, IfErr, Some, None, true, map, not, option_map};
ghost use Rattle.mlk_text.specs.Failures.{IfRefused};
ghost use Rattle.mlk_syntax.specs.ExprTrees.{actual_trees};
ghost use Rattle.mlk_syntax.specs.Views.{line_of, routine_of};
ghost use Rattle.mlk_syntax.specs.Distinct.{AreDistinct};
ghost use Rattle.mlk_program.specs.Entries.{name_of, entries_among, formals_of};
ghost use Rattle.mlk_program.specs.Program.{takes, called_formals, call_fault, shared_by, AreTooMany};
ghost use Rattle.mlk_program.specs.Program.{IsTwice, IsPastLimit, IsCallFault, IsFirstFault};
ghost use Rattle.mlk_program.specs.Program.{calls_of, shared_with, name_at, IsProgram, IsLinkFault};
ghost use Rattle.mlk_program.specs.Found.{site_of, given_of};
ghost use Rattle.mlk_program.specs.Tables.{trees};
ghost use Rattle.mlk_program.specs.Linking.{Gains, Links, placed_at, placed_in};

use crate::call::CallSite;
use crate::directory::Directory;
use crate::fault::refusal;
use crate::found::in_commands;
use crate::frames::Frames;
use crate::program::Program;
use crate::shared::SharedNames;
use mlk_syntax::{Actual, Callee, Line, Rare, Routine};
use mlk_text::{Code, Column, Failure, Fault, LineNumber, List, Name};
use std::alloc::{AllocError, Global};

// The maximum number of routines of a program.
const MOST_ROUTINES: usize = 65535;

// The maximum number of entries of a program: first lines, and further lines with a label.
const MOST_ENTRIES: usize = 1048575;

// Checks that no two routines have the same name.
fn check_distinct(alloc: Global, directory: &Directory<'_>) -> Result<(), Failure<Fault>>
    ensures ok { OnOk result (AreDistinct (map name_of (trees directory.now))) }
    ensures refused { IfErr result (λ e. IfRefused e (IsTwice (trees directory.now))) }
{
    for (i, routine) in directory.routines().iter().enumerate() {
        if directory.routine(routine.name.as_bytes()) != Some(i) {
            return Err(refusal(
                alloc,
                Code::RoutineTwice,
                &routine.name,
                LineNumber::new(1),
                Column::new(1),
            ));
        }
    }
    Ok(())
}

// The number of entries among `lines`.
fn entry_count(lines: &[Line]) -> usize
    ensures { result ≡ entries_among (map line_of lines.now) }
{
    let Some((_, later)) = lines.split_first() else {
        return 0;
    };
    1 + later.iter().filter(|line| line.label.is_some()).count()
}

// Checks the limits on routines and entries.
fn check_limits(alloc: Global, routines: &[Routine]) -> Result<(), Failure<Fault>>
    ensures ok { OnOk result (AreTooMany (trees routines.now) → ⊥) }
    ensures refused { IfErr result (λ e. IfRefused e (IsPastLimit (trees routines.now))) }
{
    let mut entries: usize = 0;
    for (i, routine) in routines.iter().enumerate() {
        entries = entries.saturating_add(entry_count(routine.lines.as_slice()));
        if i >= MOST_ROUTINES || entries > MOST_ENTRIES {
            return Err(refusal(
                alloc,
                Code::TooMany,
                &routine.name,
                LineNumber::new(1),
                Column::new(1),
            ));
        }
    }
    Ok(())
}

// Whether a line with `formals` accepts `actuals`.
fn takes(formals: &Rare<List<Name>>, actuals: &Option<Vec<Actual>>) -> bool
    ensures { result ≡ takes formals.now (given_of actuals.now) }
{
    match (formals.as_ref(), actuals) {
        (None, None) => true,
        (Some(formals), None) => formals.as_slice().is_empty(),
        (Some(formals), Some(given)) => given.len() <= formals.as_slice().len(),
        (None, Some(_)) => false,
    }
}

// Where calls are: the index of their routine, its name, and their line.
#[derive(Drop)]
struct At<'a> {
    routine: usize,
    name: &'a Name,
    line: LineNumber,
}

// The line that `callee` names, or `None`.
fn called_line<'a>(directory: &Directory<'a>, own: usize, callee: &Callee) -> Option<&'a Line>
    ensures { option_map (λ l. formals_of (line_of l.now).0) result
        ≡ called_formals (trees directory.now) own callee.now }
{
    let Some(entry) = directory.target(own, callee) else {
        return None;
    };
    directory.line(entry)
}

// The formals of the line that `site` calls, if that line exists and accepts the actuals.
fn fitting_formals<'a>(
    alloc: Global,
    directory: &Directory<'a>,
    at: &At<'a>,
    site: &CallSite<'a>,
) -> Result<&'a Rare<List<Name>>, Failure<Fault>>
    requires { name_at (trees directory.now) at.now.routine ≡ at.now.name.now }
    ensures ok { IfOk result (λ f. (called_formals (trees directory.now) at.now.routine site.now.callee.now ≡ Some f.now)
        × (takes f.now (given_of site.now.actuals.now) ≡ true)) }
    ensures refused { IfErr result (λ e. IfRefused e (IsCallFault (trees directory.now)
        (record { routine = at.now.routine; line = at.now.line; call = site_of site.now }))) }
{
    let Some(line) = called_line(directory, at.routine, site.callee) else {
        return Err(refusal(alloc, Code::UnknownLabel, at.name, at.line, site.column));
    };
    if !takes(&line.formals, site.actuals) {
        return Err(refusal(alloc, Code::Arity, at.name, at.line, site.column));
    }
    Ok(&line.formals)
}

// Adds the names that the actual list shares with `formals`.
fn add_shared<'a>(
    shared: &mut SharedNames<'a>,
    formals: &'a Rare<List<Name>>,
    actuals: &'a Option<Vec<Actual>>,
) -> Result<(), AllocError>
    ensures { OnOk result (Gains (shared_with (given_of actuals.now) (Some formals.now)) shared.old shared.new) }
{
    let Some(given) = actuals else {
        return Ok(());
    };
    shared.add_lent(given.as_slice())?;
    if let Some(formals) = formals.as_ref() {
        shared.add_received(formals.as_slice(), given.as_slice())?;
    }
    Ok(())
}

// Links one call.
#[tactic(auto, using(crate::proofs::LinkedCalls::call_linked))]
fn link_call<'a>(
    alloc: Global,
    directory: &Directory<'a>,
    at: &At<'a>,
    site: &CallSite<'a>,
    shared: &mut SharedNames<'a>,
) -> Result<(), Failure<Fault>>
    requires { name_at (trees directory.now) at.now.routine ≡ at.now.name.now }
    ensures ok { OnOk result (Links (trees directory.now) (placed_at at.now.routine at.now.line site.now)
        shared.old shared.new) }
    ensures refused { IfErr result (λ e. IfRefused e (IsCallFault (trees directory.now)
        (record { routine = at.now.routine; line = at.now.line; call = site_of site.now }))) }
{
    let formals = fitting_formals(alloc, directory, at, site)?;
    add_shared(shared, formals, site.actuals)?;
    Ok(())
}

// Links the calls of a line, up to the first that is refused.
fn link_calls<'a>(
    alloc: Global,
    directory: &Directory<'a>,
    at: &At<'a>,
    found: &[CallSite<'a>],
    shared: &mut SharedNames<'a>,
) -> Result<(), Failure<Fault>>
    requires { name_at (trees directory.now) at.now.routine ≡ at.now.name.now }
    ensures ok { OnOk result (Links (trees directory.now) (flat_map (placed_at at.now.routine at.now.line) found.now)
        shared.old shared.new) }
    ensures refused { IfErr result (λ e. IfRefused e (IsFirstFault (trees directory.now)
        (flat_map (placed_at at.now.routine at.now.line) found.now))) }
{
    for site in found {
        link_call(alloc, directory, at, site, shared)?;
    }
    Ok(())
}

// Links the calls of a line and of its block.
#[cycle(lines)]
#[tactic(auto, using(crate::proofs::LinkedLines::line_parts))]
fn link_line<'a>(
    alloc: Global,
    directory: &Directory<'a>,
    routine: usize,
    name: &'a Name,
    line: &'a Line,
    shared: &mut SharedNames<'a>,
) -> Result<(), Failure<Fault>>
    requires { name_at (trees directory.now) routine ≡ name.now }
    ensures ok { OnOk result (Links (trees directory.now) (placed_in routine line.now) shared.old shared.new) }
    ensures refused { IfErr result (λ e. IfRefused e (IsFirstFault (trees directory.now)
        (placed_in routine line.now))) }
{
    let mut found = Vec::new(alloc);
    in_commands(&mut found, &line.commands)?;
    let at = At {
        routine,
        name,
        line: line.number,
    };
    link_calls(alloc, directory, &at, found.as_slice(), shared)?;
    link_lines(
        alloc,
        directory,
        routine,
        name,
        line.block.as_slice(),
        shared,
    )?;
    Ok(())
}

// Links the calls of lines and of their blocks.
#[cycle(lines)]
fn link_lines<'a>(
    alloc: Global,
    directory: &Directory<'a>,
    routine: usize,
    name: &'a Name,
    lines: &'a [Line],
    shared: &mut SharedNames<'a>,
) -> Result<(), Failure<Fault>>
    requires { name_at (trees directory.now) routine ≡ name.now }
    ensures ok { OnOk result (Links (trees directory.now) (flat_map (placed_in routine) lines.now)
        shared.old shared.new) }
    ensures refused { IfErr result (λ e. IfRefused e (IsFirstFault (trees directory.now)
        (flat_map (placed_in routine) lines.now))) }
{
    for line in lines {
        link_line(alloc, directory, routine, name, line, shared)?;
    }
    Ok(())
}

// Links all calls.
fn link_routines<'a>(
    alloc: Global,
    directory: &Directory<'a>,
    shared: &mut SharedNames<'a>,
) -> Result<(), Failure<Fault>>
    ensures ok { OnOk result (Links (trees directory.now) (calls_of (trees directory.now)) shared.old shared.new) }
    ensures refused { IfErr result (λ e. IfRefused e (IsFirstFault (trees directory.now)
        (calls_of (trees directory.now)))) }
{
    for (i, routine) in directory.routines().iter().enumerate() {
        link_lines(
            alloc,
            directory,
            i,
            &routine.name,
            routine.lines.as_slice(),
            shared,
        )?;
    }
    Ok(())
}

/// Links `routines`, in the given order: finds a line for each call, or returns the first reason why they are not a program.
pub fn link<'a>(alloc: Global, routines: &'a [Routine]) -> Result<Program<'a>, Failure<Fault>>
    // The program consists of `routines`.
    ensures same { IfOk result (λ p. p ≡ routines.now) }
    // They are a program,
    ensures linked { IfOk result (λ p. IsProgram (map routine_of routines.now)) }
    // or they have this fault.
    ensures refused { IfErr result (λ e. IfRefused e (IsLinkFault (map routine_of routines.now))) }
{
    let directory = Directory::of(alloc, routines)?;
    check_distinct(alloc, &directory)?;
    check_limits(alloc, routines)?;
    let mut shared = SharedNames::new(alloc);
    link_routines(alloc, &directory, &mut shared)?;
    let frames = Frames::of(alloc, &directory)?;
    Ok(Program {
        directory,
        shared,
        frames,
    })
}
