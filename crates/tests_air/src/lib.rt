//! Tests of the crates of Air by their public calls: what no clause says of them.
#![tactic(auto)]

#[cfg(test)]
mod colourings;
#[cfg(test)]
mod copies;
#[cfg(test)]
mod shuffles;
#[cfg(test)]
mod slow;
