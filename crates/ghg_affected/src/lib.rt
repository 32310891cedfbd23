//! What a change of the data affects, and what it does not: laws of the definitions.
//!
//! A corrected workbook is compiled by the evaluation of its affected nodes alone, over the outcomes that it
//! had.
#![tactic(auto)]

mod laws;

pub use laws::{
    affected_nodes_are_listed, affected_nodes_stand_once, breaks_are_affected,
    formulas_depend_on_reads, inputs_are_nodes, nodes_stand_once, overflows_are_in_patches,
    unaffected_keep, untouched_are_unchanged,
};
