//! The rules that the evidence of a program suggests: covers, private and readonly globals, entries, and
//! the places that do not follow them. Nothing that is proved of a `yes` depends on this crate.
#![tactic(auto)]

mod candidate;
mod cover;
mod entry;
mod global;
mod guess;
mod known;
mod place;
mod score;
mod split;
mod suspect;

pub use cover::{CoverGuess, Element, Pattern};
pub use entry::{EntryGuess, EntryKind};
pub use global::{GlobalGuess, Undecided};
pub use guess::{Guess, guess_of};
pub use known::KnownRules;
pub use mlk_suggest_ranks::{Against, FamilyGuess, FamilyName, Nesting};
pub use place::{LockPattern, Part};
pub use score::Score;
pub use suspect::Suspect;
