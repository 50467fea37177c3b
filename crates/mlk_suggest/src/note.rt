// The notes of a walk.

use crate::state::State;
use mlk_suggest_steps::{Step, UnitId};

/// A step of `unit` that touches, claims, releases or calls, and the state before it.
#[derive(Drop)]
pub(crate) struct Note<'p, 'a> {
    pub(crate) unit: UnitId,
    pub(crate) step: &'p Step<'a>,
    pub(crate) state: State,
}
