// The tasks of a job.

use crate::binding::Names;
use crate::touch::Touch;
use mlk_names::{Access, Extent, LockName};
use mlk_syntax::{
    Action, Actual, Callee, Command, Expr, For, Line, Parameter, Sign, Target, Variable,
};
use mlk_text::{Name, Op, UnaryOp, Value};

/// How a call is made.
#[derive(Clone, Copy, Drop)]
pub enum Calling {
    ByDo,
    Extrinsic,
}

/// The rest of a line: its commands, the FOR after them, and the line itself.
#[derive(Clone, Copy, Drop)]
pub struct Rest<'a> {
    pub commands: &'a [Command],
    pub last: Option<&'a For>,
    pub line: &'a Line,
}

/// The parts of expressions: each pushes one value.
#[derive(Clone, Drop)]
pub enum ValueTask<'a> {
    Evaluate(&'a Expr),
    Push(&'a Value),
    Fetch(&'a Name),
    PushJob,
    PushTest,
    ApplyUnary(UnaryOp),
    ApplyBinary(Op),
    /// drops this number of values, and pushes any value
    AskValue(usize),
    /// drops this number of values
    DropValues(usize),
    Select(&'a [(Expr, Expr)]),
    /// the value for a condition that was evaluated, and the conditions after it
    Selected(&'a Expr, &'a [(Expr, Expr)]),
    /// a global with this number of subscripts, which were evaluated
    FormReference(&'a Name, usize, Extent, Access),
    DoTouch(Touch),
}

/// Changes of locals, and the assignments of SET and MERGE.
#[derive(Clone, Drop)]
pub enum LocalTask<'a> {
    Store(&'a Name, Value),
    StoreAny(&'a Name),
    StoreLast(&'a Name),
    KillNames(Names<'a>),
    NewNames(Names<'a>),
    Assign(&'a [Target]),
    /// the target, then the source
    Merge(&'a Variable, &'a Variable),
}

/// Tasks that depend on a truth value, or set one.
#[derive(Clone, Drop)]
pub enum TestTask<'a> {
    SetTest,
    AskTest,
    SkipIf(bool),
    /// a command whose postconditional was evaluated, and the block of its line
    Conditionally(&'a Action, &'a [Line]),
}

/// Changes of locks.
#[derive(Drop)]
pub enum LockTask<'a> {
    /// names whose subscripts were evaluated, and whether there is a timeout
    LockNamed(Sign, &'a [Variable], bool),
    Claim(Vec<LockName>, bool),
    Release(Vec<LockName>),
    ReleaseAll,
}

/// The begin of a frame, of a block or of another job, and GOTO.
#[derive(Clone, Drop)]
pub enum ScopeTask<'a> {
    Call(Calling, &'a Callee, &'a [Actual]),
    CallIf(&'a Callee, &'a [Actual]),
    /// JOB of an entry whose actuals were evaluated
    StartJob(&'a Callee, &'a [Actual]),
    Block(&'a [Line]),
    /// GOTO
    GoTo(&'a Callee),
    /// GOTO with a postconditional of its own, which was evaluated
    GoIf(&'a Callee),
}

/// Lines: their commands, the rounds of FOR, and QUIT and HALT.
#[derive(Clone, Drop)]
pub enum LineTask<'a> {
    RunLines(&'a [Line]),
    RunCommands(Rest<'a>),
    /// after this number of arguments of a command
    NextArgument(&'a Action, usize),
    Parameters(&'a Name, &'a [Parameter], Rest<'a>),
    Forever(Rest<'a>),
    NextValue(&'a Name, Rest<'a>),
    FirstRound(&'a Name, &'a [Parameter], Rest<'a>),
    LaterRound(&'a Name, &'a [Parameter], Rest<'a>),
    QuitHere,
    QuitWithValue,
    HaltJob,
}

/// A task. A job takes its first one, which is replaced by its parts until it is a single step.
#[derive(Drop)]
pub enum Task<'a> {
    Value(ValueTask<'a>),
    Local(LocalTask<'a>),
    Test(TestTask<'a>),
    Lock(LockTask<'a>),
    Scope(ScopeTask<'a>),
    Line(LineTask<'a>),
}
