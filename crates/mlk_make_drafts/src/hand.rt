// The FORs of a line.

use mlk_syntax::{Commands, For};

/// The number of FORs of a line.
pub fn rounds_in(commands: &Commands) -> usize {
    match &commands.last {
        None => 0,
        Some(last) => last.index.max(rounds_in(&last.rest)),
    }
}

/// FOR number `round` of a line, counted from 1, or `None`.
pub fn for_at(commands: &Commands, round: usize) -> Option<&For> {
    let last = commands.last.as_ref()?;
    if last.index == round {
        return Some(last);
    }
    for_at(&last.rest, round)
}
