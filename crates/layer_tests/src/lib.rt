//! Tests of public calls that no clause and no row says, of the crates below a run. They are in a crate of their own,
//! since a crate is proved once more with each test that it has.
#![tactic(auto)]

#[cfg(test)]
mod crossing;
#[cfg(test)]
mod directions;
#[cfg(test)]
mod drops;
#[cfg(test)]
mod expressions;
#[cfg(test)]
mod fragments;
#[cfg(test)]
mod interrupted;
#[cfg(test)]
mod lanes;
#[cfg(test)]
mod outside;
#[cfg(test)]
mod overlaps;
#[cfg(test)]
mod patterns;
#[cfg(test)]
mod records;
#[cfg(test)]
mod refusals;
#[cfg(test)]
mod seeds;
