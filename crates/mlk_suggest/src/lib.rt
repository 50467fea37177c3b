//! The held locks at each place: a walk over the steps of routines, which refuses nothing, and the evidence for rules that it
//! collects. Nothing that is proved of a `yes` depends on this crate.
#![tactic(auto)]

mod arrival;
mod evidence;
mod facts;
mod flow;
mod line;
mod note;
mod solution;
mod spot;
mod state;
mod walker;

pub use arrival::Arrival;
pub use evidence::{ClaimAt, Evidence, Moment, ReleaseAt, TouchAt, evidence_of};
pub use facts::UnitFacts;
pub use mlk_suggest_held::{Holding, Lock, Tables, are_alike, is_above};
pub use spot::Spot;
