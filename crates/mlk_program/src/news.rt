// The names that NEW creates.

ghost use Rattle.std.specs.Prelude.{◌≡◌, ◌∷◌, [], OnOk, IfOk, map, flat_map};
ghost use Rattle.mlk_syntax.specs.Views.{line_of, action_of, commands_of, new_of};
ghost use Rattle.mlk_syntax.specs.Trees.{NewOne, NewAllBut};
ghost use Rattle.mlk_program.specs.News.{Adds, new_tree, news_of, news_with, news_in, news_at, news_of_lines};

use mlk_syntax::{Action, Command, Commands, Line, NewArgument};
use mlk_text::{Column, Name};
use std::alloc::{AllocError, Global};

/// What an argument of NEW creates.
#[derive(Clone, Copy, Drop)]
pub enum NewNames<'a> {
    /// this local, with the column of its name
    One(Column, &'a Name),
    /// all locals except these
    AllBut(&'a [Name]),
}

// Appends one local.
fn add_one<'a>(
    names: &mut Vec<NewNames<'a>>,
    column: Column,
    name: &'a Name,
) -> Result<(), AllocError>
    ensures { OnOk result (Adds (NewOne column name.now ∷ []) names.old.items names.new.items) }
{
    let Ok(()) = names.push(NewNames::One(column, name)) else {
        return Err(AllocError);
    };
    Ok(())
}

// Appends all locals except `kept`.
fn add_all_but<'a>(names: &mut Vec<NewNames<'a>>, kept: &'a [Name]) -> Result<(), AllocError>
    ensures { OnOk result (Adds (NewAllBut kept.now ∷ []) names.old.items names.new.items) }
{
    let Ok(()) = names.push(NewNames::AllBut(kept)) else {
        return Err(AllocError);
    };
    Ok(())
}

fn add_argument<'a>(
    names: &mut Vec<NewNames<'a>>,
    argument: &'a NewArgument,
) -> Result<(), AllocError>
    ensures { OnOk result (Adds (new_of argument.now ∷ []) names.old.items names.new.items) }
{
    match argument {
        NewArgument::One(column, name) => add_one(names, *column, name),
        NewArgument::AllBut(kept) => add_all_but(names, kept.as_slice()),
    }
}

fn add_arguments<'a>(
    names: &mut Vec<NewNames<'a>>,
    arguments: &'a [NewArgument],
) -> Result<(), AllocError>
    ensures { OnOk result (Adds (map new_of arguments.now) names.old.items names.new.items) }
{
    for argument in arguments {
        add_argument(names, argument)?;
    }
    Ok(())
}

// Appends what `command` creates if it is a NEW. Without arguments NEW creates all locals.
fn add_command<'a>(names: &mut Vec<NewNames<'a>>, command: &'a Command) -> Result<(), AllocError>
    ensures { OnOk result (Adds (news_of (action_of command.now.action)) names.old.items names.new.items) }
{
    let Action::New(arguments) = &command.action else {
        return Ok(());
    };
    if arguments.is_empty() {
        return add_all_but(names, &[]);
    }
    add_arguments(names, arguments.as_slice())
}

fn add_before<'a>(names: &mut Vec<NewNames<'a>>, commands: &'a [Command]) -> Result<(), AllocError>
    ensures { OnOk result (Adds (flat_map news_with commands.now) names.old.items names.new.items) }
{
    for command in commands {
        add_command(names, command)?;
    }
    Ok(())
}

// Appends what the NEWs of a line create, those after a FOR included.
#[tactic(auto, using(crate::proofs::NewLists::news_last, crate::proofs::NewLists::news_for))]
fn add_commands<'a>(names: &mut Vec<NewNames<'a>>, commands: &'a Commands) -> Result<(), AllocError>
    ensures { OnOk result (Adds (news_in (commands_of commands.now)) names.old.items names.new.items) }
{
    add_before(names, commands.before.as_slice())?;
    if let Some(last) = &commands.last {
        add_commands(names, &last.rest)?;
    }
    Ok(())
}

#[tactic(auto, using(crate::proofs::NewLists::news_of_line))]
fn add_line<'a>(names: &mut Vec<NewNames<'a>>, line: &'a Line) -> Result<(), AllocError>
    ensures { OnOk result (Adds (news_at (line_of line.now)) names.old.items names.new.items) }
{
    add_commands(names, &line.commands)?;
    Ok(())
}

/// What the NEW commands of `lines` create, in order, those after a FOR included, but not those of the lines' blocks. NEW
/// without arguments creates all locals.
pub fn new_names<'a>(alloc: Global, lines: &'a [Line]) -> Result<Vec<NewNames<'a>>, AllocError>
    ensures { IfOk result (λ v. map new_tree v.items ≡ news_of_lines (map line_of lines.now)) }
{
    let mut names = Vec::new(alloc);
    for line in lines {
        add_line(&mut names, line)?;
    }
    Ok(names)
}
