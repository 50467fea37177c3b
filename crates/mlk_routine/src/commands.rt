// The commands of a line.

ghost use Rattle.std.specs.Prelude.{◌≡◌, ◌<◌, ◌≤◌, ◌==◌, ◌&&◌, ℕ, length, vec_len, vec_capacity};
ghost use Rattle.std.specs.Prelude.{drop, option_map, map, is_some, IfOk, OnOk, true};
ghost use Rattle.mlk_text.specs.Lexemes.{word_at};
ghost use Rattle.mlk_routine_arguments.specs.PartsRead.{ReadsPart};
ghost use Rattle.mlk_routine_arguments.specs.CommandWords.{is_for};
ghost use Rattle.mlk_routine_arguments.specs.CommandGrammar.{AreCommands};
ghost use Rattle.mlk_routine_arguments.specs.Ends.{StopEnds, CommandsEnd};
ghost use Rattle.mlk_syntax.specs.Views.{command_of, control_of, commands_of, commands_from};
ghost use Rattle.mlk_syntax.specs.Trees.{then_for};
ghost use Rattle.mlk_routine.specs.Leading.{Leads, LeadsTo, manner_in, IsPerhapsControl, IsLoop, LoopEnds};

use crate::command::{Manner, command};
use mlk_dialect::Dialect;
use mlk_routine_arguments::{
    control, first_argument, is_bare, is_command_end, is_commands_end, is_for, past_spaces,
    refusal_at,
};
use mlk_syntax::{Command, Commands, Control, For};
use mlk_text::lexeme::word_at;
use mlk_text::{Code, Column, Failure, Fault, drop_and_return};
use std::alloc::{AllocError, Global};

const MOST_LOOPS: usize = 255;

/// Where commands are: on a line of `level`, inside `loops` FORs.
#[derive(Clone, Copy, Drop)]
pub(crate) struct Inside {
    pub(crate) dialect: Dialect,
    pub(crate) level: usize,
    pub(crate) loops: usize,
}

impl Inside {
    // How a command here is read. A QUIT may have a value if it ends a call.
    fn manner(self) -> Manner
        ensures { result ≡ manner_in self.dialect self.level self.loops }
    {
        Manner {
            dialect: self.dialect,
            returns: self.level == 1 && self.loops == 0,
        }
    }
}

// Whether the word at the front is FOR. Most words begin with another letter, and are not compared.
fn begins_for(bytes: &[u8]) -> bool
    ensures { result ≡ is_for (word_at bytes.now).0 }
{
    let first = bytes.first().copied();
    if first != Some(b'F') && first != Some(b'f') {
        return false;
    }
    let (letters, _) = word_at(bytes);
    is_for(letters)
}

// Whether the word at `at` is FOR.
fn is_for_here(line: &[u8], at: usize) -> bool
    requires { at ≤ length line.now }
    ensures { result ≡ is_for (word_at (drop at line.now)).0 }
{
    let (_, bytes) = line.split_at(at);
    begins_for(bytes)
}

// Makes room for a command. Most lines have one or two: if the first is not the last, there is room for two; after that the
// capacity grows by half, so that little of it is unused.
fn make_room_for(before: &mut Vec<Command>, is_last: bool) -> Result<(), AllocError>
    ensures same { OnOk result (before.new.items ≡ before.old.items) }
    ensures room { OnOk result (vec_len before.new < vec_capacity before.new) }
{
    if before.len() < before.capacity() {
        return Ok(());
    }
    let more = if before.is_empty() && !is_last {
        2
    } else {
        (before.len() / 2).max(1)
    };
    before.reserve_exact(more)
}

// Reads the commands up to the next FOR, or all: the commands, and the byte after them and the spaces there.
#[inline(always)]
fn before_for(
    alloc: Global,
    inside: Inside,
    line: &[u8],
    at: usize,
) -> Result<(Vec<Command>, usize), Failure<Fault>>
    requires { at ≤ length line.now }
    ensures { Leads inside.dialect inside.level inside.loops line.now at result }
{
    let mut before = Vec::new(alloc);
    let mut next = at;
    while !is_commands_end(line, next) && !is_for_here(line, next) {
        let (read, end) = command(alloc, inside.manner(), line, next)?;
        next = past_spaces(line, end);
        let Ok(()) = make_room_for(&mut before, is_commands_end(line, next)) else {
            return Err(drop_and_return(read, Failure::OutOfMemory));
        };
        before.push_reserved(read);
    }
    Ok((before, next))
}

// Reads FOR's variable and parameters, if it has any: both, and the byte after them.
fn optional_control(
    alloc: Global,
    dialect: Dialect,
    line: &[u8],
    at: usize,
) -> Result<(Option<Control>, usize), Failure<Fault>>
    requires { at ≤ length line.now }
    ensures { ReadsPart (option_map control_of) IsPerhapsControl (λ c. StopEnds (is_some c)) line.now at result }
{
    if is_bare(line, at) {
        return Ok((None, at));
    }
    let first = first_argument(alloc, line, at)?;
    let (read, next) = control(alloc, dialect, line, first)?;
    if !is_command_end(line, next) {
        return Err(refusal_at(alloc, Code::Spacing, next));
    }
    Ok((Some(read), next))
}

// Reads a FOR inside `loops` others, without the rest of its line: its variable and parameters, if it has any, and the byte
// after them.
fn for_head(
    alloc: Global,
    dialect: Dialect,
    loops: usize,
    line: &[u8],
    at: usize,
) -> Result<(Option<Control>, usize), Failure<Fault>>
    requires within { at ≤ length line.now }
    requires here { is_for (word_at (drop at line.now)).0 ≡ true }
    ensures { ReadsPart (option_map control_of) (IsLoop loops) LoopEnds line.now at result }
{
    if loops >= MOST_LOOPS {
        return Err(refusal_at(alloc, Code::TooLarge, at));
    }
    let (_, bytes) = line.split_at(at);
    let (letters, _) = word_at(bytes);
    optional_control(alloc, dialect, line, at + letters.len())
}

// The commands of a line: those before a FOR, and that FOR with the rest of the line.
fn with_for(
    alloc: Global,
    before: Vec<Command>,
    place: (Column, usize),
    control: Option<Control>,
    rest: Commands,
) -> Result<Commands, AllocError>
    ensures { IfOk result (λ c. commands_of c ≡ commands_from (map command_of before.items)
        (then_for place.0 place.1 (option_map control_of control) (commands_of rest))) }
{
    let (column, index) = place;
    let last = For {
        column,
        index,
        control,
        rest,
    };
    let last = Some(Box::new(alloc, last)?);
    Ok(Commands { before, last })
}

// Reads the FOR here with the rest of its line, after the commands `before`: all of them, and the byte after them.
#[cycle(commanding)]
fn with_loop(
    alloc: Global,
    inside: Inside,
    line: &[u8],
    before: Vec<Command>,
    at: usize,
) -> Result<(Commands, usize), Failure<Fault>>
    requires within { at ≤ length line.now }
    requires here { is_for (word_at (drop at line.now)).0 ≡ true }
    ensures { (begin : ℕ) → LeadsTo inside.dialect inside.level inside.loops line.now begin (map command_of before.items) at
        → ReadsPart commands_of (AreCommands inside.dialect inside.level inside.loops) CommandsEnd line.now begin result }
{
    let (control, end) = for_head(alloc, inside.dialect, inside.loops, line, at)?;
    let inner = Inside {
        loops: inside.loops + 1,
        ..inside
    };
    let (rest, end) = commands(alloc, inner, line, past_spaces(line, end))?;
    let place = (Column::at(at + 1), inner.loops);
    Ok((with_for(alloc, before, place, control, rest)?, end))
}

/// Reads all commands from `at` on: the commands, and the byte after them, which is the line's end or a comment.
#[cycle(commanding)]
pub(crate) fn commands(
    alloc: Global,
    inside: Inside,
    line: &[u8],
    at: usize,
) -> Result<(Commands, usize), Failure<Fault>>
    requires { at ≤ length line.now }
    ensures { ReadsPart commands_of (AreCommands inside.dialect inside.level inside.loops) CommandsEnd line.now at result }
{
    let (before, next) = before_for(alloc, inside, line, at)?;
    if is_commands_end(line, next) {
        return Ok((Commands { before, last: None }, next));
    }
    with_loop(alloc, inside, line, before, next)
}
