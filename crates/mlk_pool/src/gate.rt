// What workers ask before they walk a task.

ghost use Rattle.std.specs.Prelude.{IsTrue};

/// What a worker asks before it walks a task, and notifies once it has posted it. Tasks and workers are counted from 0.
pub trait Gate {
    /// An open gate lets every worker pass.
    ghost is_open: { Self → Type 0 };

    /// Whether the worker may walk the task. It may wait.
    fn pass(&self, worker: usize, task: usize) -> bool
        ensures { is_open self.now → IsTrue result };

    /// The worker has posted the task.
    fn on_post(&self, worker: usize, task: usize);
}
