//! Tests of an office over a keeper: how many nodes a submission affects, that what was accepted is repeated
//! by an office that is reopened, that what the keeper did not take can be submitted again, and that what was
//! frozen is set beside what holds.
//!
//! They stand in a crate of their own, above the office and the kit's `sqlite`.
#![tactic(auto)]

#[cfg(test)]
mod counted;
#[cfg(test)]
mod reopened;
#[cfg(test)]
mod stopped;
#[cfg(test)]
mod unkept;
#[cfg(test)]
mod versions;
