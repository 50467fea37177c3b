// Whether a line runs the block below it.

ghost use Rattle.std.specs.Prelude.{◌≡◌, ◌||◌};
ghost use Rattle.std.specs.List.{list_any};
ghost use Rattle.mlk_routine_arguments.specs.CommandWords.{reaches_block};
ghost use Rattle.mlk_syntax.specs.Views.{commands_of, command_of};
ghost use Rattle.mlk_routine.specs.Lines.{is_block};

use mlk_syntax::{Action, Command, Commands};

// Whether `command` is a DO without arguments.
fn is_block(command: &Command) -> bool
    ensures { result ≡ is_block (command_of command.now) }
{
    match &command.action {
        Action::Do(calls) => calls.is_empty(),
        _ => false,
    }
}

// Whether one of `commands` is a DO without arguments.
fn has_block(commands: &[Command]) -> bool
    ensures { result ≡ list_any (λ c. is_block (command_of c)) commands.now }
{
    commands.iter().any(|c| is_block(c))
}

/// Whether one of `commands`, or of the commands in their FORs, is a DO without arguments.
pub(crate) fn reaches_block(commands: &Commands) -> bool
    ensures { result ≡ reaches_block (commands_of commands.now) }
{
    if has_block(&commands.before) {
        return true;
    }
    match &commands.last {
        Some(last) => reaches_block(&last.rest),
        None => false,
    }
}
