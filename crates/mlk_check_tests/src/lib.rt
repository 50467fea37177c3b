//! Tests by public calls of what no row of text reaches: what events make of jobs, names that `NEW` makes new, and the faults
//! of single entries, of their lines and of a program. The answers are worked out by hand.
#![tactic(auto)]

#[cfg(test)]
mod faults;
#[cfg(test)]
mod given;
#[cfg(test)]
mod jobs;
#[cfg(test)]
mod news;
