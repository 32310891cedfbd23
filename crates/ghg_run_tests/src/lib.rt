//! Tests of the public calls that do all that the program does.
//!
//! They stand apart from `ghg_run`, so that it is not proved again with them.
#![tactic(auto)]

#[cfg(test)]
mod ends;
#[cfg(test)]
mod faults;
#[cfg(test)]
mod full_at_first;
#[cfg(test)]
mod meeting;
#[cfg(test)]
mod runs;
#[cfg(test)]
mod serving;
#[cfg(test)]
mod words;
#[cfg(test)]
mod workers;
