// The steps of lines and routines.

use crate::command::{Scope, add_command};
use crate::expr::add_expr;
use crate::step::{Change, Code, Jump, Mark, Rounds, StackStep, Step};
use crate::writer::Writer;
use mlk_program::{EntryId, Program};
use mlk_syntax::{Commands, Control, For, Line, Parameter, Routine};
use mlk_text::push_sparing;
use std::alloc::{AllocError, Global};

// Adds the steps of a parameter of FOR, and returns whether its values end.
fn add_parameter<'a>(
    writer: &mut Writer<'_, 'a>,
    parameter: &'a Parameter,
) -> Result<Rounds, AllocError> {
    match parameter {
        Parameter::Once(value) => {
            add_expr(writer, value)?;
            writer.push_discard(1)?;
            Ok(Rounds::Limited)
        }
        Parameter::Endless(start, step) => {
            add_expr(writer, start)?;
            add_expr(writer, step)?;
            writer.push_discard(2)?;
            Ok(Rounds::Endless)
        }
        Parameter::Limited(start, step, limit) => {
            add_expr(writer, start)?;
            add_expr(writer, step)?;
            add_expr(writer, limit)?;
            writer.push_discard(3)?;
            Ok(Rounds::Limited)
        }
    }
}

// Adds the steps of the parameters of a FOR, and returns whether the values of its variable end.
fn add_parameters<'a>(
    writer: &mut Writer<'_, 'a>,
    control: &'a Option<Control>,
) -> Result<Rounds, AllocError> {
    let Some(control) = control else {
        return Ok(Rounds::Endless);
    };
    let mut rounds = Rounds::Limited;
    for parameter in &control.parameters {
        if add_parameter(writer, parameter)? == Rounds::Endless {
            rounds = Rounds::Endless;
        }
    }
    Ok(rounds)
}

// Adds the start of a round of a FOR, whose variable gets an unknown value, and returns its mark.
fn begin_round<'a>(
    writer: &mut Writer<'_, 'a>,
    control: &'a Option<Control>,
) -> Result<Mark, AllocError> {
    let start = writer.make_mark()?;
    writer.place(start);
    if let Some(control) = control {
        writer.push_value(StackStep::Forget(0))?;
        writer.push_change(Change::Assign(&control.variable))?;
    }
    Ok(start)
}

// Adds the steps of the FOR `last`, with those of the rest of its line.
#[cycle(lines)]
fn add_for<'a>(writer: &mut Writer<'_, 'a>, scope: Scope, last: &'a For) -> Result<(), AllocError> {
    let rounds = add_parameters(writer, &last.control)?;
    let next = writer.make_mark()?;
    let end = writer.make_mark()?;
    writer.push_jump(Jump::BeginFor)?;
    let start = begin_round(writer, &last.control)?;
    let inner = Scope {
        skip: next,
        leave: Some(end),
        block: scope.block,
    };
    add_commands(writer, inner, &last.rest)?;
    writer.place(next);
    writer.push_jump(Jump::EndRound(rounds, start))?;
    writer.place(end);
    Ok(())
}

// Adds the steps of the commands of a line, or of the rest of a line.
#[cycle(lines)]
fn add_commands<'a>(
    writer: &mut Writer<'_, 'a>,
    scope: Scope,
    commands: &'a Commands,
) -> Result<(), AllocError> {
    for command in &commands.before {
        add_command(writer, scope, command)?;
    }
    match &commands.last {
        Some(last) => add_for(writer, scope, last),
        None => Ok(()),
    }
}

// Adds the steps of the commands of `line`, whose block is at the mark `block`.
fn add_own<'a>(
    writer: &mut Writer<'_, 'a>,
    line: &'a Line,
    block: Option<Mark>,
) -> Result<(), AllocError> {
    writer.line = line.number;
    let end = writer.make_mark()?;
    let scope = Scope {
        skip: end,
        leave: None,
        block,
    };
    add_commands(writer, scope, &line.commands)?;
    writer.place(end);
    Ok(())
}

// Adds the steps of `line`, and after them those of its block, over which the line jumps.
fn add_line<'a>(writer: &mut Writer<'_, 'a>, line: &'a Line) -> Result<(), AllocError> {
    if line.block.is_empty() {
        return add_own(writer, line, None);
    }
    let block = writer.make_mark()?;
    let over = writer.make_mark()?;
    add_own(writer, line, Some(block))?;
    writer.push_jump(Jump::Always(over))?;
    writer.place(block);
    for inner in &line.block {
        add_line(writer, inner)?;
    }
    push_sparing(&mut writer.steps, Step::Return)?;
    writer.place(over);
    Ok(())
}

// Adds the steps of the lines of `routine`. A call returns before a line with a formal list.
fn add_routine<'a>(
    writer: &mut Writer<'_, 'a>,
    number: usize,
    routine: &'a Routine,
) -> Result<(), AllocError> {
    writer.routine = number;
    writer.name = routine.name.as_bytes();
    for (index, line) in routine.lines.iter().enumerate() {
        if line.formals.is_some() {
            push_sparing(&mut writer.steps, Step::Return)?;
        }
        if let Some(mark) = writer.lines.of(EntryId::new(number, index)) {
            writer.place(mark);
        }
        add_line(writer, line)?;
    }
    push_sparing(&mut writer.steps, Step::Return)
}

/// Makes the steps of `program`.
pub fn code_of<'a>(alloc: Global, program: &Program<'a>) -> Result<Code<'a>, AllocError> {
    let mut writer = Writer::new(alloc, program)?;
    for (number, routine) in program.routines().iter().enumerate() {
        add_routine(&mut writer, number, routine)?;
    }
    Ok(writer.into_code())
}
