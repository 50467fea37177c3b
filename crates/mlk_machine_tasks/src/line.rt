// The rest of a line, and its next command.

ghost use Rattle.std.specs.Prelude.{◌≡◌, ◌∷◌, [], OnOk, map, is_some, option_map};
ghost use Rattle.mlk_syntax.specs.Views.{line_of, commands_of, last_or_none};
ghost use Rattle.mlk_program.specs.Entries.{formals_of};
ghost use Rattle.mlk_machine_jobs.specs.Tasks.{RunLines, RunCommands};
ghost use Rattle.mlk_machine_jobs.specs.Lines.{next_command};
ghost use Rattle.mlk_machine_jobs.specs.Calling.{formals_in, commands_in};
ghost use Rattle.mlk_machine_jobs.specs.TaskViews.{Adds, block_of, for_of, commands_left};

use crate::action::command_parts;
use mlk_machine_expressions::add;
use mlk_machine_jobs::{LineTask, Rest, Task};
use mlk_syntax::{Commands, For, Line};
use mlk_text::Name;
use std::alloc::AllocError;

// The FOR that ends commands, or `None`.
fn last_for(last: &Option<Box<For>>) -> Option<&For>
    ensures { option_map (λ f. for_of f.now) result ≡ option_map (λ b. for_of b.value) last.now }
{
    match last {
        None => None,
        Some(last) => Some(last),
    }
}

// The rest of a line that consists of all of `commands`.
#[tactic(auto, using(crate::proofs::LineParts::commands_out))]
fn rest_of<'a>(commands: &'a Commands, line: &'a Line) -> Rest<'a>
    ensures commands { commands_left result ≡ commands_of commands.now }
    ensures line { result.line.now ≡ line.now }
{
    Rest {
        commands: commands.before.as_slice(),
        last: last_for(&commands.last),
        line,
    }
}

// A FOR with the rest of its line.
#[tactic(auto, using(crate::proofs::LineParts::for_without, crate::proofs::LineParts::for_with))]
fn for_parts<'a>(parts: &mut Vec<Task<'a>>, last: &'a For, line: &'a Line) -> Result<(), AllocError>
    ensures { OnOk result (Adds (next_command (for_of last.now) (line_of line.now) []) parts.old.items parts.new.items) }
{
    let rest = rest_of(&last.rest, line);
    match &last.control {
        None => add(parts, Task::Line(LineTask::Forever(rest))),
        Some(control) => add(
            parts,
            Task::Line(LineTask::Parameters(
                &control.variable,
                control.parameters.as_slice(),
                rest,
            )),
        ),
    }
}

// The end of commands: the FOR, if there is one.
#[tactic(auto, using(mlk_machine_expressions::proofs::Additions::adds_none))]
fn last_parts<'a>(
    parts: &mut Vec<Task<'a>>,
    last: Option<&'a For>,
    line: &'a Line,
) -> Result<(), AllocError>
    ensures { OnOk result (Adds (next_command (last_or_none (option_map (λ f. for_of f.now) last.entry)) (line_of line.now) [])
        parts.old.items parts.new.items) }
{
    match last {
        None => Ok(()),
        Some(last) => for_parts(parts, last, line),
    }
}

// The lines of the block below a line.
#[tactic(auto, using(crate::proofs::LineParts::block_out))]
fn block_of(line: &Line) -> &[Line]
    ensures { block_of result.now ≡ (line_of line.now).1 }
{
    line.block.as_slice()
}

/// Adds the next command of the rest of a line, and the rest after it.
pub fn next_command<'a>(parts: &mut Vec<Task<'a>>, rest: Rest<'a>) -> Result<(), AllocError>
    ensures { OnOk result (Adds (next_command (commands_left rest.entry) (line_of rest.entry.line.now) [])
        parts.old.items parts.new.items) }
{
    let Some((command, later)) = rest.commands.split_first() else {
        return last_parts(parts, rest.last, rest.line);
    };
    command_parts(parts, block_of(rest.line), command)?;
    let left = Rest {
        commands: later,
        last: rest.last,
        line: rest.line,
    };
    add(parts, Task::Line(LineTask::RunCommands(left)))?;
    Ok(())
}

/// Whether a line has a formal list.
#[tactic(auto, using(crate::proofs::LineParts::formals_out))]
pub fn has_formals(line: &Line) -> bool
    ensures { result ≡ is_some (formals_of (line_of line.now).0) }
{
    line.formals.is_some()
}

/// The formals of a line; empty without a formal list.
#[tactic(auto, using(crate::proofs::LineParts::formals_none, crate::proofs::LineParts::formals_some))]
pub fn formals_in(line: &Line) -> &[Name]
    ensures { result.now ≡ formals_in (line_of line.now).0 }
{
    match line.formals.as_ref() {
        None => &[],
        Some(formals) => formals.as_slice(),
    }
}

/// The commands of a line.
#[tactic(auto, using(crate::proofs::LineParts::line_out))]
pub fn line_rest(line: &Line) -> Rest<'_>
    ensures commands { commands_left result ≡ commands_in (line_of line.now).0 }
    ensures line { result.line.now ≡ line.now }
{
    rest_of(&line.commands, line)
}

/// Adds a line, and the lines after it.
pub fn line_parts<'a>(
    parts: &mut Vec<Task<'a>>,
    line: &'a Line,
    later: &'a [Line],
) -> Result<(), AllocError>
    ensures { OnOk result (Adds (RunCommands (commands_in (line_of line.now).0) (line_of line.now)
        ∷ RunLines (map line_of later.now) ∷ []) parts.old.items parts.new.items) }
{
    add(parts, Task::Line(LineTask::RunCommands(line_rest(line))))?;
    add(parts, Task::Line(LineTask::RunLines(later)))?;
    Ok(())
}
