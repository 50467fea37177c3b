//! The families of the locks that a program claims, which of them are claimed while others are held, and an order of ranks that few
//! claims are against. Nothing that is proved of a `yes` depends on this crate.
#![tactic(auto)]

mod family;
mod order;
mod rank;

pub use family::{Families, FamilyGuess, FamilyName, families_of, is_plain};
pub use order::{Against, Nesting, Nestings, nestings_of};
pub use rank::order_of;
