//! Cases that hold numbers in place of lock terms, and the table that gives the numbers.
#![tactic(auto)]

mod case;
mod key;
mod law;
mod numbers;
mod table;
#[cfg(test)]
mod tests;

pub use case::{NumCase, case_of};
pub use law::{equal_numbers, one_case, table_grows};
pub use table::TermTable;
