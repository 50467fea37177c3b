// Programs of one routine, and what is tried on them.

use crate::faults::{self, Walk, is_walked};
use crate::jobs::{self, Script, Wanted, is_replayed};
use crate::news::{self, are_new};
use mlk_dialect::Dialect;
use mlk_make::make_certificate;
use mlk_program::{Program, link};
use mlk_routine::read_routine;
use mlk_rules_file::read_rules;
use mlk_syntax::Routine;
use mlk_watch::Unwatched;
use std::alloc::Global;

/// What is tried.
#[derive(Clone, Copy, Drop)]
pub(crate) enum Trial {
    /// what events make of jobs
    Replay(Script, Wanted),
    /// which names `NEW` makes new
    NewNames,
    /// what a walk finds by rules, and by the certificate that is made
    Walk(Walk),
}

impl Trial {
    fn routine(self) -> &'static [u8] {
        match self {
            Trial::Replay(_, _) => jobs::ROUTINE,
            Trial::NewNames => news::ROUTINE,
            Trial::Walk(_) => faults::ROUTINE,
        }
    }
}

fn is_certified_so(alloc: Global, program: &Program<'_>, walk: Walk) -> Option<bool> {
    let rules = read_rules(alloc, walk.rules()).ok()?;
    let certificate = make_certificate(alloc, program, &rules, &Unwatched).ok()?;
    is_walked(alloc, program, &rules, &certificate, walk)
}

fn is_linked_so(alloc: Global, routines: &[Routine], trial: Trial) -> Option<bool> {
    let program = link(alloc, routines).ok()?;
    match trial {
        Trial::Replay(script, wanted) => is_replayed(alloc, &program, script, wanted),
        Trial::NewNames => are_new(alloc, &program),
        Trial::Walk(walk) => is_certified_so(alloc, &program, walk),
    }
}

/// Whether all is as it should be; not where a call fails.
pub(crate) fn passes(alloc: Global, trial: Trial) -> bool {
    match read_routine(alloc, Dialect::Standard, b"R", trial.routine()) {
        Ok(routine) => is_linked_so(alloc, &[routine], trial) == Some(true),
        Err(_) => false,
    }
}
