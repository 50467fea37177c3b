// Names that NEW makes new before a column of a line.

use mlk_calls::is_among;
use mlk_make_drafts::for_at;
use mlk_syntax::{Action, Command, Commands, Line, NewArgument};
use mlk_text::{Column, Name};

fn is_made_new(argument: &NewArgument, names: &[Name]) -> bool {
    match argument {
        NewArgument::One(_, name) => is_among(names, name),
        NewArgument::AllBut(kept) => names.iter().any(|name| !is_among(kept.as_slice(), name)),
    }
}

// Whether `command` is before `column` and makes one of `names` new.
fn makes_new(command: &Command, column: Column, names: &[Name]) -> bool {
    if command.column >= column {
        return false;
    }
    match &command.action {
        Action::New(arguments) => {
            arguments.is_empty()
                || arguments
                    .as_slice()
                    .iter()
                    .any(|argument| is_made_new(argument, names))
        }
        _ => false,
    }
}

fn make_new(commands: &Commands, column: Column, names: &[Name]) -> bool {
    let before = commands
        .before
        .as_slice()
        .iter()
        .any(|command| makes_new(command, column, names));
    match &commands.last {
        None => before,
        Some(last) => before || make_new(&last.rest, column, names),
    }
}

/// Whether a NEW between the begin of the line, or of the rounds of its FOR with the number `round`, and `column` makes one of `names`
/// new.
pub(crate) fn are_made_new(line: &Line, round: usize, column: Column, names: &[Name]) -> bool {
    match for_at(&line.commands, round) {
        None => make_new(&line.commands, column, names),
        Some(last) => make_new(&last.rest, column, names),
    }
}
