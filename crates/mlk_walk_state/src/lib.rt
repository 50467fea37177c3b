//! The input of a walk, its states, and the queries on symbols, names and lock terms in them.
#![tactic(auto)]

mod law;
mod listed;
mod names;
mod points;
mod scope;
mod state;
mod symbol;
mod term;

pub use law::{
    all_but_allows, held_are, includes_decides, rank_is, same_decides, shares_by_own, tables_are,
};
pub use listed::{is_exit, is_listed};
pub use mlk_cert_parts::copy_case;
pub use names::{any_has_name, is_among, is_own, is_same_own, may_change, take_out};
pub use scope::{Entries, Scope};
pub use state::{RefusedState, State, before_last, last_of};
pub use symbol::{symbol_of, truth_of};
pub use term::{
    copy_terms, first_missing, is_within, mention_any, put_all, rank, take_all, take_one,
};
