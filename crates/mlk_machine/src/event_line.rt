// The contents of the lines of a file of events.

use mlk_text::{List, Value};

/// The begin of a job.
#[derive(Drop)]
pub struct Beginning {
    pub job: u32,
    /// the text of its entry
    pub entry: Value,
    /// its `$TEST`
    pub test: bool,
    /// the values of its first formals
    pub values: List<Value>,
}

/// The content of a line of a file of events: what the job with a given number does.
#[derive(Drop)]
pub enum EventLine {
    Begin(Beginning),
    /// It makes a step that asks for no choice.
    Go(u32),
    /// It makes a step, with this value as its choice.
    GoValue(u32, Value),
    /// It makes a step, with this truth value as its choice.
    GoTruth(u32, bool),
    /// It runs by itself as far as it can.
    Run(u32),
    Abort(u32),
}
