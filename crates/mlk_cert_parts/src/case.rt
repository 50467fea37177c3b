// Cases: what is known of a job.

ghost use Rattle.std.specs.Prelude.{◌≡◌, IfOk};

use crate::names::Own;
use crate::shared::Shared;
use mlk_names::LockTerm;
use mlk_text::Name;
use std::alloc::AllocError;

/// What is known of `$TEST`.
#[derive(Clone, Copy, PartialEq, Eq)]
pub enum Test {
    /// `*`: either value
    Any,
    /// `0`
    Zero,
    /// `1`
    One,
}

/// What is known of a job at the start of a line or of a round of a FOR.
#[derive(Drop, PartialEq, Eq)]
pub struct Case {
    pub test: Test,
    /// What is known of the saved `$TEST` of each open block, the outermost first.
    pub saved: Shared<Test>,
    /// The locks that this call holds, each as often as it holds it.
    pub held: Shared<LockTerm>,
    /// The names that NEW or the formal list created since the call began, and that still exist.
    pub own: Shared<Own>,
    /// The names that still have the values that they had when the call began.
    pub kept: Shared<Name>,
}

/// What is known of a job when a call ends.
#[derive(Drop, PartialEq, Eq)]
pub struct ExitCase {
    pub test: Test,
    /// The locks that the call leaves held.
    pub held: Shared<LockTerm>,
    /// The names that still have the values that they had when the call began.
    pub kept: Shared<Name>,
}

/// Copies `case`; the copy shares its lists.
#[inline(always)]
pub fn copy_case(case: &Case) -> Result<Case, AllocError>
    ensures { IfOk result (λ c. c ≡ case.now) }
{
    Ok(Case {
        test: case.test,
        held: case.held.clone()?,
        own: case.own.clone()?,
        kept: case.kept.clone()?,
        saved: case.saved.clone()?,
    })
}
