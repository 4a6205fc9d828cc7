//! Tests of whole runs of the detector that neither a clause nor a row of data says, by the public calls of
//! the crates. They are in a crate of their own, since a crate is proved once more with each test that it has.
#![tactic(auto)]

#[cfg(test)]
mod candidates;
#[cfg(test)]
mod captured;
#[cfg(test)]
mod endings;
#[cfg(test)]
mod meeting;
#[cfg(test)]
mod unified2;
#[cfg(test)]
mod watched;
