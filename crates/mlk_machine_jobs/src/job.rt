// A job: the values that it has computed, the locks that it holds, and the tasks that are left.

ghost use Rattle.std.specs.Prelude.{◌≡◌, Ok, Err, OnOk, OnErr, IfErr, option_map};
ghost use Rattle.mlk_machine_jobs.specs.JobViews.{job_of};
ghost use Rattle.mlk_machine_jobs.specs.Sound.{Sound};
ghost use Rattle.mlk_machine_jobs.specs.TaskViews.{touch_of};
ghost use Rattle.mlk_machine_jobs.specs.Runs.{aborted, seen};
ghost use Rattle.mlk_machine_jobs.specs.Seen.{ready};

use crate::binding::Binder;
use crate::cell::CellTable;
use crate::pending::Pending;
use crate::stack::Stack;
use crate::task::{LockTask, Task, ValueTask};
use crate::touch::Touch;
use mlk_machine_locks::{Held, Refusal, Seen};
use mlk_names::LockName;
use std::alloc::Global;

/// A job that runs routines.
#[derive(Drop)]
pub struct Job<'a> {
    pub number: u32,
    pub test: bool,
    /// the index of the running routine
    pub routine: usize,
    /// the newest last
    pub binders: Vec<Binder<'a>>,
    /// the values of cells, by generation
    pub tables: Vec<CellTable<'a>>,
    pub values: Stack,
    pub held: Held,
    /// the next one last
    pub pending: Vec<Pending<'a>>,
    pub stopped: bool,
}

impl<'a> Seen for Job<'a> {
    ghost use Rattle.mlk_machine_jobs.specs.JobViews.{job_of};
    ghost use Rattle.mlk_machine_jobs.specs.Runs.{seen};

    ghost seen = { λ j. seen (job_of j) };

    fn number(&self) -> u32 {
        self.number
    }

    fn held(&self) -> &Held {
        &self.held
    }

    fn awaited_names(&self) -> &[LockName] {
        match self.pending.last() {
            Some(Pending::Task(Task::Lock(LockTask::Claim(names, false)))) => names.as_slice(),
            _ => &[],
        }
    }
}

impl<'a> Job<'a> {
    /// The reference at which the job stands ready, that is, if touching it is its next task. Allocates nothing.
    pub fn ready_touch(&self) -> Option<&Touch>
        ensures { option_map (λ t. touch_of t.now) result ≡ ready (job_of self.now) }
    {
        match self.pending.last() {
            Some(Pending::Task(Task::Value(ValueTask::DoTouch(touch)))) => Some(touch),
            _ => None,
        }
    }

    /// Aborts the job: it then holds no lock and does nothing more. Refused if it has nothing to do.
    pub fn abort(&mut self, alloc: Global) -> Result<(), Refusal>
        ensures ok { OnOk result (aborted (job_of self.old) (job_of self.old).tasks ≡ Ok (job_of self.new)) }
        ensures err { IfErr result (λ why. aborted (job_of self.old) (job_of self.old).tasks ≡ Err why) }
        ensures stays { OnErr result (self.new ≡ self.old) }
        ensures sound { Sound self.old → Sound self.new }
    {
        if self.pending.is_empty() {
            return Err(Refusal::NotEnabled);
        }
        self.held = Held::new(alloc);
        self.pending = Vec::new(alloc);
        self.stopped = true;
        Ok(())
    }
}
