// The input of a suggestion's text.

use mlk_suggest::Tables;
use mlk_suggest_read::PartlyRead;
use mlk_suggest_rules::Guess;
use mlk_suggest_steps::Program;
use std::alloc::Global;

/// The input of a suggestion's text: what was read, its program, the tables of its evidence, and the rules that are suggested.
#[derive(Clone, Copy, Drop)]
pub(crate) struct View<'v> {
    pub(crate) alloc: Global,
    pub(crate) read: &'v PartlyRead,
    pub(crate) program: &'v Program<'v>,
    pub(crate) tables: &'v Tables,
    pub(crate) guess: &'v Guess,
}
