// The changes that steps make to a job, one function each.

ghost use Rattle.std.specs.Prelude.{◌≡◌, ◌<◌, ◌∷◌, ◌++◌, map, OnOk, OnErr, [], option_copied};
ghost use Rattle.mlk_syntax.specs.Views.{line_of};
ghost use Rattle.mlk_machine_jobs.specs.Bindings.{look};
ghost use Rattle.mlk_machine_jobs.specs.Choices.{pushed, dropped, last_values, doing, stored};
ghost use Rattle.mlk_machine_jobs.specs.Lines.{skipped, to_end, quit, answered};
ghost use Rattle.mlk_machine_jobs.specs.Locking.{tested};
ghost use Rattle.mlk_machine_jobs.specs.Sound.{Sound};
ghost use Rattle.mlk_machine_jobs.specs.Tasks.{RunLines};
ghost use Rattle.mlk_machine_jobs.specs.TaskViews.{task_of};
ghost use Rattle.mlk_machine_jobs.specs.Views.{names_of};
ghost use Rattle.mlk_machine_jobs.specs.JobViews.{job_of, cleared, killing, releasing, holding_nothing, KeepsPending};

use crate::binding::{Names, look_up};
use crate::cell::{clear, leave_out, store, value_of};
use crate::job::Job;
use crate::kill::{cells_of_formals, cells_spared};
use crate::pending;
use crate::task::{LineTask, Task};
use mlk_machine_locks::Held;
use mlk_names::LockName;
use mlk_syntax::Line;
use mlk_text::Value;
use std::alloc::{AllocError, Global};

impl<'a> Job<'a> {
    /// Pushes a value that was computed.
    pub fn push(&mut self, value: Value) -> Result<(), AllocError>
        ensures ok { OnOk result (job_of self.new ≡ pushed value (job_of self.old)) }
        ensures err { OnErr result (job_of self.new ≡ job_of self.old) }
        ensures room { OnErr result (KeepsPending self.old self.new) }
        ensures sound { Sound self.old → Sound self.new }
    {
        self.values.push(value)
    }

    /// The last `count` values, oldest first. Allocates nothing.
    pub fn last_values(&self, count: usize) -> &[Value]
        ensures { result.now ≡ last_values count (job_of self.now) }
    {
        self.values.last(count)
    }

    /// Drops the last `count` values. Allocates nothing.
    pub fn use_up(&mut self, count: usize)
        ensures changed { job_of self.new ≡ dropped count (job_of self.old) }
        ensures sound { Sound self.old → Sound self.new }
    {
        self.values.use_up(count);
    }

    /// Replaces the last `count` values by `value`.
    pub fn replace_last(&mut self, count: usize, value: Value) -> Result<(), AllocError>
        ensures ok { OnOk result (job_of self.new ≡ pushed value (dropped count (job_of self.old))) }
        ensures err { OnErr result (job_of self.new ≡ job_of self.old) }
        ensures room { OnErr result (KeepsPending self.old self.new) }
        ensures sound { Sound self.old → Sound self.new }
    {
        self.values.replace_last(count, value)
    }

    /// Sets the value of `name`, whose cell is in one of the tables.
    pub fn store(&mut self, name: &'a [u8], value: Value) -> Result<(), AllocError>
        requires { (look (job_of self.old).bindings name.now).generation < (job_of self.old).next }
        ensures ok { OnOk result (job_of self.new ≡ stored name.now value (job_of self.old)) }
        ensures err { OnErr result (job_of self.new ≡ job_of self.old) }
        ensures room { OnErr result (KeepsPending self.old self.new) }
        ensures sound { Sound self.old → Sound self.new }
    {
        let cell = look_up(self.binders.as_slice(), name);
        store(&mut self.tables, cell, value)
    }

    /// Removes the value of `name`, and of each name that shares its cell. Allocates nothing.
    pub fn clear(&mut self, name: &'a [u8])
        requires { (look (job_of self.old).bindings name.now).generation < (job_of self.old).next }
        ensures changed { job_of self.new ≡ cleared name.now (job_of self.old) }
        ensures sound { Sound self.old → Sound self.new }
    {
        let cell = look_up(self.binders.as_slice(), name);
        clear(&mut self.tables, cell);
    }

    /// Removes the value of each cell of `names`, unless a name that is spared shares it.
    pub fn kill(&mut self, alloc: Global, names: Names<'a>) -> Result<(), AllocError>
        ensures ok { OnOk result (job_of self.new ≡ killing (names_of names.entry) (job_of self.old)) }
        ensures err { OnErr result (job_of self.new ≡ job_of self.old) }
        ensures room { OnErr result (KeepsPending self.old self.new) }
        ensures sound { Sound self.old → Sound self.new }
    {
        let shared = cells_of_formals(alloc, self.binders.as_slice(), names)?;
        let spared = cells_spared(alloc, self.binders.as_slice(), names)?;
        leave_out(
            &mut self.tables,
            self.binders.as_slice(),
            names,
            shared.as_slice(),
            spared.as_slice(),
        );
        Ok(())
    }

    /// Sets `$TEST`. Allocates nothing.
    pub fn set_test(&mut self, truth: bool)
        ensures changed { job_of self.new ≡ tested truth (job_of self.old) }
        ensures sound { Sound self.old → Sound self.new }
    {
        self.test = truth;
    }

    /// The value of the cell to which `name` is bound, or `None`. Allocates nothing.
    pub fn value_of(&self, name: &[u8]) -> Option<&Value>
        ensures { option_copied result ≡ (job_of self.now).cells (look (job_of self.now).bindings name.now) }
    {
        value_of(
            self.tables.as_slice(),
            look_up(self.binders.as_slice(), name),
        )
    }

    /// Releases each of `names` once, if it is held. Allocates nothing.
    pub fn release(&mut self, names: &[LockName])
        ensures changed { job_of self.new ≡ releasing names.now (job_of self.old) }
        ensures sound { Sound self.old → Sound self.new }
    {
        self.held.release(names);
    }

    /// Releases all locks. Allocates nothing.
    pub fn release_all(&mut self, alloc: Global)
        ensures changed { job_of self.new ≡ holding_nothing (job_of self.old) }
        ensures sound { Sound self.old → Sound self.new }
    {
        self.held = Held::new(alloc);
    }

    /// Puts `tasks` before all others, in this order.
    pub fn do_first(&mut self, tasks: Vec<Task<'a>>) -> Result<(), AllocError>
        ensures ok { OnOk result (job_of self.new
            ≡ doing (map task_of tasks.entry.items ++ (job_of self.old).tasks) (job_of self.old)) }
        ensures err { OnErr result (job_of self.new ≡ job_of self.old) }
        ensures room { OnErr result (KeepsPending self.old self.new) }
        ensures sound { Sound self.old → Sound self.new }
    {
        pending::do_first(&mut self.pending, tasks)?;
        Ok(())
    }

    /// Skips the rest of the line, up to the next round of its innermost FOR. Allocates nothing.
    pub fn skip(&mut self)
        ensures changed { job_of self.new ≡ doing (skipped (job_of self.old).tasks) (job_of self.old) }
        ensures sound { Sound self.old → Sound self.new }
    {
        pending::skip(&mut self.pending);
    }

    /// Quits the block, or if there is none the frame, up to its end. Allocates nothing.
    pub fn go_to_end(&mut self)
        ensures changed { job_of self.new ≡ doing (to_end (job_of self.old).tasks) (job_of self.old) }
        ensures sound { Sound self.old → Sound self.new }
    {
        pending::go_to_end(&mut self.pending);
    }

    /// Puts `lines` in the place of what is left of the block, or if there is none of the frame.
    pub fn go_to(&mut self, lines: &'a [Line]) -> Result<(), AllocError>
        ensures ok { OnOk result (job_of self.new
            ≡ doing (RunLines (map line_of lines.now) ∷ to_end (job_of self.old).tasks) (job_of self.old)) }
        ensures err { OnErr result (job_of self.new ≡ job_of self.old) }
        ensures room { OnErr result (KeepsPending self.old self.new) }
        ensures sound { Sound self.old → Sound self.new }
    {
        pending::replace_to_end(&mut self.pending, Task::Line(LineTask::RunLines(lines)))?;
        Ok(())
    }

    /// Quits the innermost FOR of the line, or if there is none the block, or if there is none the frame. Allocates nothing.
    pub fn quit(&mut self)
        ensures changed { job_of self.new ≡ doing (quit (job_of self.old).tasks) (job_of self.old) }
        ensures sound { Sound self.old → Sound self.new }
    {
        pending::quit(&mut self.pending);
    }

    /// If the frame at whose end the job is awaits a value, it keeps the last one; otherwise the value is dropped. Allocates
    /// nothing.
    pub fn answer(&mut self)
        ensures changed { job_of self.new ≡ answered (job_of self.old) (job_of self.old).tasks }
        ensures sound { Sound self.old → Sound self.new }
    {
        if !pending::keep_value(&mut self.pending) {
            self.values.use_up(1);
        }
    }

    /// Removes all tasks. Allocates nothing.
    pub fn halt(&mut self)
        ensures changed { job_of self.new ≡ doing [] (job_of self.old) }
        ensures sound { Sound self.old → Sound self.new }
    {
        self.pending.clear();
    }
}
