//! The grammar of `mlock`'s command line, and what `--help` says.
#![tactic(auto)]

mod commands;
mod help;

pub use commands::grammar;
