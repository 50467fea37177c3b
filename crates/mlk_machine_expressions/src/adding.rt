// Adding tasks one after another.

ghost use Rattle.std.specs.Prelude.{◌∷◌, [], OnOk};
ghost use Rattle.mlk_machine_jobs.specs.TaskViews.{Adds, task_of};

use mlk_machine_jobs::Task;
use std::alloc::AllocError;

/// Adds a task.
pub fn add<'a>(parts: &mut Vec<Task<'a>>, task: Task<'a>) -> Result<(), AllocError>
    ensures { OnOk result (Adds (task_of task.entry ∷ []) parts.old.items parts.new.items) }
{
    let Ok(()) = parts.push(task) else {
        return Err(AllocError);
    };
    Ok(())
}
