// What workers ask before they walk an entry.

use mlk_pool::Gate;

/// A gate that is always open.
#[derive(Drop)]
pub struct OpenGate;

impl Gate for OpenGate {
    ghost is_open = { λ _. Unit {0} };

    fn pass(&self, _worker: usize, _task: usize) -> bool {
        true
    }

    fn on_post(&self, _worker: usize, _task: usize) {}
}
