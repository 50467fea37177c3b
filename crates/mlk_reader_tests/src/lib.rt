//! Tests by public calls of what no row of text reaches: names, rules and certificates that were made by hand, and the calls on
//! them that no other crate makes. The answers come from outside the program.
#![tactic(auto)]

#[cfg(test)]
mod making;
#[cfg(test)]
mod names;
#[cfg(test)]
mod rules;
#[cfg(test)]
mod writing;
