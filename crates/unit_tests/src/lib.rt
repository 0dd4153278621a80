//! Tests that cross crates: what no contract says, and what the program doesn't show (tests/cases and
//! tests/tables show the rest).
//!
//! They promise nothing. Begin with `base`, which has what they share.
#![tactic(auto)]

#[cfg(test)]
mod base;
#[cfg(test)]
mod colouring;
#[cfg(test)]
mod cuts;
#[cfg(test)]
mod live;
#[cfg(test)]
mod top;
#[cfg(test)]
mod verifiers;
