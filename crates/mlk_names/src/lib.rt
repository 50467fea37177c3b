//! Symbols, lock terms and references: what they denote in a job, and which of them meet.
#![tactic(auto)]

mod actual;
mod known_symbol;
mod law;
mod list;
mod lock_name;
mod overlap;
mod reference;
mod symbol;
mod term;

pub use actual::substitute;
pub use known_symbol::KnownSym;
pub use law::{above_one_meet, conflicts_above, names_by_mentioned, overlaps_foreseen};
pub use lock_name::{LockName, conflict};
pub use mlk_text::Root;
pub use overlap::may_overlap;
pub use reference::{Access, Extent, Reference, ReferenceSubs};
pub use symbol::Sym;
pub use term::{LockTerm, TermSubs, mentions, prefix};
