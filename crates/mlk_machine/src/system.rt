// Systems: the jobs of a program at one moment.

ghost use Rattle.std.specs.Prelude.{◌≡◌, [], IfOk, OnErr, Some, map, option_map, option_and_then};
ghost use Rattle.mlk_text.specs.Failures.{Answers};
ghost use Rattle.mlk_machine_locks.specs.Laws.{has_ring_of};
ghost use Rattle.mlk_machine_locks.specs.Systems.{Begin, Go, Abort, and_then, happens};
ghost use Rattle.mlk_machine_jobs.specs.JobViews.{job_of};
ghost use Rattle.mlk_machine_jobs.specs.Runs.{seen};
ghost use Rattle.mlk_machine_jobs.specs.Seen.{ready, settled_in};
ghost use Rattle.mlk_machine_jobs.specs.TaskViews.{touch_of};
ghost use Rattle.mlk_machine.specs.Events.{act_of};
ghost use Rattle.mlk_machine.specs.Jobs.{job_numbered, one_waits, count_held};
ghost use Rattle.mlk_machine.specs.Systems.{jobs_in, routines_in, machine_of, IsSame, Stays};

use crate::beginning::begin;
use crate::event::{Act, Event, copy_of_choice};
use crate::number::job_numbered;
use crate::ring::has_ring;
use crate::settling::settle_numbered;
use crate::stepping::{abort_numbered, go_numbered};
use indexmap::IndexSet;
use mlk_machine_jobs::{Choice, Job, Touch};
use mlk_machine_locks::{LockTable, Refusal, waits_for};
use mlk_machine_run::{Beginning, Turn};
use mlk_names::LockName;
use mlk_program::{EntryId, Program};
use mlk_text::{Failure, Value};
use std::alloc::{AllocError, Global};
use std::marker::Model;

/// The jobs of a program, which begin at `entries` and share locks. The program and the entries are borrowed.
#[derive(Drop)]
pub struct System<'a> {
    alloc: Global,
    program: &'a Program<'a>,
    entries: &'a [EntryId],
    // the numbers of the jobs, in order
    numbers: IndexSet<u32>,
    jobs: Vec<Job<'a>>,
    // finds jobs by the names that they hold
    table: LockTable,
}

impl<'a> Model for System<'a> {
    ghost use Rattle.std.specs.Coded.{codes};
    ghost use Rattle.indexmap.specs.Layout.{hash_map_code};
    ghost use Rattle.mlk_syntax.specs.contracts.expr.Expr as expr;
    ghost use Rattle.mlk_syntax.specs.contracts.expr.Actual as actual;
    ghost use Rattle.mlk_syntax.specs.contracts.command.Commands as commands;
    ghost use Rattle.mlk_syntax.specs.contracts.command.For as loop_of;
    ghost use Rattle.mlk_syntax.specs.contracts.routine.Line as line;
    ghost use Rattle.mlk_machine_locks.specs.Tables.{Covers};
    ghost use Rattle.mlk_machine_run.specs.Jobs.{AreSound, seen_in};
    ghost use Rattle.mlk_machine.specs.Numbers.{AreNumbers};
    ghost use Rattle.mlk_machine.specs.Running.{Running};

    ghost Value = { Running };

    ghost coded = { Prim.hlevel (
      codes,
      hash_map_code,
      expr.the_row.coded,
      actual.the_row.coded,
      commands.the_row.coded,
      loop_of.the_row.coded,
      line.the_row.coded,
    ) };

    ghost view = { λ s. record { program = s.program.now; entries = s.entries.now; jobs = s.jobs.items } };

    ghost invariant = { λ s. AreSound s.jobs.items × AreNumbers s.numbers.keys s.jobs.items
        × Covers seen_in s.table s.jobs.items };
}

impl<'a> System<'a> {
    /// A system without jobs. Allocates nothing.
    pub fn start(alloc: Global, program: &'a Program<'a>, entries: &'a [EntryId]) -> System<'a>
        ensures { result ≡ record { program = program.now; entries = entries.now; jobs = [] } }
    {
        System {
            alloc,
            program,
            entries,
            numbers: IndexSet::new(alloc),
            jobs: Vec::new(alloc),
            table: LockTable::new(alloc),
        }
    }

    // Begins a job.
    fn begin(
        &mut self,
        number: u32,
        entry: EntryId,
        test: bool,
        values: &[Value],
    ) -> Result<(), Failure<Refusal>>
        ensures answer { Answers (λ _. jobs_in self.new) result
            (happens (machine_of self.old) (jobs_in self.old) number (Begin entry test (map Some values.now))) }
        ensures same { IsSame self.old self.new }
        ensures stays { OnErr result (Stays self.old self.new) }
    {
        let beginning = Beginning {
            entry,
            number,
            test,
            values,
        };
        begin(
            self.alloc,
            self.program,
            self.entries,
            &mut self.numbers,
            &mut self.jobs,
            &beginning,
        )
    }

    // Makes a step of a job.
    fn step_job(&mut self, number: u32, choice: &Choice) -> Result<(), Failure<Refusal>>
        ensures answer { Answers (λ _. jobs_in self.new) result
            (happens (machine_of self.old) (jobs_in self.old) number (Go choice.now)) }
        ensures same { IsSame self.old self.new }
        ensures stays { OnErr result (Stays self.old self.new) }
    {
        let choice = copy_of_choice(choice)?;
        go_numbered(
            self.alloc,
            self.program,
            &self.numbers,
            &mut self.table,
            &mut self.jobs,
            Turn { number, choice },
        )
    }

    // Aborts a job.
    fn abort(&mut self, number: u32) -> Result<(), Failure<Refusal>>
        ensures answer { Answers (λ _. jobs_in self.new) result
            (happens (machine_of self.old) (jobs_in self.old) number Abort) }
        ensures same { IsSame self.old self.new }
        ensures stays { OnErr result (Stays self.old self.new) }
    {
        abort_numbered(self.alloc, &self.numbers, &mut self.jobs, number)
    }

    /// Applies an event. If it can't happen, or memory runs out, all jobs are unchanged.
    pub fn step(&mut self, event: &Event) -> Result<(), Failure<Refusal>>
        ensures answer { Answers (λ _. jobs_in self.new) result
            (happens (machine_of self.old) (jobs_in self.old) event.now.job (act_of event.now.act)) }
        ensures same { IsSame self.old self.new }
        ensures stays { OnErr result (Stays self.old self.new) }
    {
        match &event.act {
            Act::Begin(entry, test, values) => {
                self.begin(event.job, *entry, *test, values.as_slice())
            }
            Act::Go(choice) => self.step_job(event.job, choice),
            Act::Abort => self.abort(event.job),
        }
    }

    /// Lets the job `number` run by itself while its next task is silent, up to the maximum number of steps; returns how many it
    /// made. If memory runs out, all jobs are unchanged.
    pub fn settle(&mut self, number: u32) -> Result<u32, Failure<Refusal>>
        ensures answer { Answers (λ count. (jobs_in self.new, count)) result
            (settled_in (routines_in self.old) number (jobs_in self.old)) }
        ensures same { IsSame self.old self.new }
        ensures stays { OnErr result (Stays self.old self.new) }
    {
        settle_numbered(
            self.alloc,
            self.program,
            &self.numbers,
            &mut self.jobs,
            number,
        )
    }

    /// The jobs, in the order in which they began. Allocates nothing.
    pub fn jobs(&self) -> &[Job<'a>]
        ensures { result.now ≡ self.now.jobs }
    {
        self.jobs.as_slice()
    }

    /// The program that the jobs run. Allocates nothing.
    pub fn program(&self) -> &'a Program<'a>
        ensures { result.now ≡ self.now.program }
    {
        self.program
    }

    /// The job `number`, or `None`. Allocates nothing.
    pub fn job(&self, number: u32) -> Option<&Job<'a>>
        ensures { option_map (λ j. job_of j.now) result ≡ job_numbered number (jobs_in self.now) }
    {
        job_numbered(&self.numbers, self.jobs.as_slice(), number)
    }

    /// The reference that the job `number` is ready to touch, or `None`. Allocates nothing.
    pub fn ready_touch(&self, number: u32) -> Option<&Touch>
        ensures { option_map (λ t. touch_of t.now) result
            ≡ option_and_then ready (job_numbered number (jobs_in self.now)) }
    {
        self.job(number)?.ready_touch()
    }

    /// Whether the job `number` waits for the job `other`. Allocates nothing.
    pub fn waits_for(&self, number: u32, other: u32) -> bool
        ensures { result ≡ one_waits (job_numbered number (jobs_in self.now)) (job_numbered other (jobs_in self.now)) }
    {
        match (self.job(number), self.job(other)) {
            (Some(job), Some(other)) => waits_for(job, other),
            _ => false,
        }
    }

    /// How often the job `number` holds `name`; 0 if there is no such job. Allocates nothing.
    pub fn hold_count(&self, number: u32, name: &LockName) -> u32
        ensures { result ≡ count_held name.now (job_numbered number (jobs_in self.now)) }
    {
        match self.job(number) {
            Some(job) => job.held.count(name),
            None => 0,
        }
    }

    /// The names that the job `number` holds, each with its count; `None` if there is no such job. Allocates nothing.
    pub fn held_names(&self, number: u32) -> Option<&[(LockName, u32)]>
        ensures { option_map (λ h. h.now) result ≡ option_map (λ j. j.held) (job_numbered number (jobs_in self.now)) }
    {
        Some(self.job(number)?.held.entries())
    }

    /// Whether some of the jobs wait in a ring, each for one of them.
    pub fn has_ring(&self) -> Result<bool, AllocError>
        ensures { IfOk result (λ found. found ≡ has_ring_of seen (jobs_in self.now)) }
    {
        has_ring(self.alloc, self.jobs.as_slice())
    }
}
