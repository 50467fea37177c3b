//! Tests by public calls of workers side by side: on the texts of a program, on one board, and on the lines of one entry. The
//! answers are worked out by hand.
#![tactic(auto)]

#[cfg(test)]
mod gates;
#[cfg(test)]
mod given;
#[cfg(test)]
mod halves;
#[cfg(test)]
mod meeting;
#[cfg(test)]
mod reports;
#[cfg(test)]
mod working;
