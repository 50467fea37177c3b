//! Stubs: routines in M that take the place of routines that are called and not given, or that can't be read. A stub touches no
//! global and no lock; it changes `$TEST` and what is passed by reference to anything, and returns anything. That the routine
//! whose place it takes does no more is a premise, which people review.
#![tactic(auto)]

mod call;
mod collection;
mod draft;
mod label;
mod scope;
mod stub_text;
mod stubs;

pub use mlk_suggest_read::RoutineText;
pub use scope::Wanted;
pub use stub_text::StubText;
pub use stubs::stubs_for;
