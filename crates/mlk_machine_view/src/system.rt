// A system as text.

ghost use Rattle.std.specs.Prelude.{◌≡◌, IfOk};
ghost use Rattle.mlk_machine.specs.Systems.{jobs_in, routines_in};
ghost use Rattle.mlk_machine_view.specs.Printed.{system_text};

use crate::printed::{push_clashes, push_jobs, push_ring, push_waits};
use mlk_cert_lexemes::WrittenText;
use mlk_machine::System;
use std::alloc::{AllocError, Global};

/// The text of a system: a line for each job, in the order in which they began, with what it does next and the locks that it
/// holds; a line for each pair that clashes, and for each job that waits for another; and whether some wait in a ring.
#[tactic(auto, using(crate::proofs::PrintedLemmas::system_written))]
pub fn system_text(alloc: Global, system: &System) -> Result<WrittenText, AllocError>
    ensures { IfOk result (λ text. text ≡ system_text (routines_in system.now) (jobs_in system.now)) }
{
    let jobs = system.jobs();
    let mut text = WrittenText::new(alloc);
    push_jobs(alloc, &mut text, system.program(), jobs)?;
    push_clashes(alloc, &mut text, jobs)?;
    push_waits(alloc, &mut text, jobs)?;
    push_ring(&mut text, system.has_ring()?)?;
    Ok(text)
}
