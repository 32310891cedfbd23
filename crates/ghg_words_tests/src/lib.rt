//! Tests of the public calls that read command lines, and of those that read the lines of scripts.
//!
//! They stand apart from the tests of the libraries below the office, so that those are not proved again with
//! it.
#![tactic(auto)]

#[cfg(test)]
mod commands;
#[cfg(test)]
mod scripts;
