// The instructions in the lines of a file of events.

ghost use Rattle.std.specs.Prelude.{◌≡◌, map, option_map};
ghost use Rattle.mlk_syntax.specs.Views.{routine_of};
ghost use Rattle.mlk_machine.specs.declared.event_line.EventLine.TheVariants.{Begin};
ghost use Rattle.mlk_machine.specs.Events.{act_of};
ghost use Rattle.mlk_machine.specs.Files.{asked, Happens};
ghost use Rattle.mlk_machine.specs.InstructionViews.{asked_of};

use crate::event::{Act, Event};
use crate::event_line::{Beginning, EventLine};
use mlk_machine_jobs::Choice;
use mlk_program::Program;

/// The instruction in a line.
#[derive(Drop)]
pub(crate) enum Instruction {
    /// an event happens
    Happens(Event),
    /// the job with this number runs by itself
    RunsAlone(u32),
}

// An event.
fn event_instruction(job: u32, act: Act) -> Instruction
    ensures { asked_of result ≡ Happens (record { job = job; act = act_of act }) }
{
    Instruction::Happens(Event { job, act })
}

// The instruction to begin a job, or `None` if the program does not have the entry.
fn begin_instruction(program: &Program, order: Beginning) -> Option<Instruction>
    ensures { option_map asked_of result ≡ asked (map routine_of program.now) (Begin order) }
{
    let Beginning {
        job,
        entry,
        test,
        values,
    } = order;
    let entry = program.entry(entry.as_bytes())?;
    Some(event_instruction(job, Act::Begin(entry, test, values)))
}

/// The instruction in a line, or `None` if a job is to begin at an entry that the program does not have.
pub(crate) fn instruction_of(program: &Program, order: EventLine) -> Option<Instruction>
    ensures { option_map asked_of result ≡ asked (map routine_of program.now) order }
{
    match order {
        EventLine::Begin(order) => begin_instruction(program, order),
        EventLine::Go(job) => Some(event_instruction(job, Act::Go(Choice::None))),
        EventLine::GoValue(job, value) => Some(event_instruction(
            job,
            Act::Go(Choice::Value(value)),
        )),
        EventLine::GoTruth(job, truth) => Some(event_instruction(
            job,
            Act::Go(Choice::Truth(truth)),
        )),
        EventLine::Run(job) => Some(Instruction::RunsAlone(job)),
        EventLine::Abort(job) => Some(event_instruction(job, Act::Abort)),
    }
}
