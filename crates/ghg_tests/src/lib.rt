//! Tests of the public calls of the libraries below the program, as tables of cases.
//!
//! They show what no clause says: figures that were worked by hand, printed text, and that a call succeeds
//! where there is memory. They stand in a crate of their own, so that each library is proved once. Sessions
//! of the whole program stand in `tests/`.
#![tactic(auto)]

#[cfg(test)]
mod analyses;
#[cfg(test)]
mod boards;
#[cfg(test)]
mod cases;
#[cfg(test)]
mod categories;
#[cfg(test)]
mod doors;
#[cfg(test)]
mod equations;
#[cfg(test)]
mod intervals;
#[cfg(test)]
mod layers;
#[cfg(test)]
mod splicing;
#[cfg(test)]
mod streams;
#[cfg(test)]
mod tables;
#[cfg(test)]
mod values;
#[cfg(test)]
mod words;
#[cfg(test)]
mod workbooks;
