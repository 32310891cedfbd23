//! Rows of the table of equations.

use crate::eq_id::EqId;
use crate::quantity::{Dim, Output};
use crate::sector::Sector;

/// A parameter of an equation.
#[derive(Clone, Copy)]
pub struct Param {
    /// 1 to 8 upper-case letters or digits.
    pub name: &'static str,
    pub dim: Dim,
}

/// A row of the table. The expression of its equation is a definition, which code and contracts cite.
#[derive(Clone, Copy)]
pub struct Equation {
    pub id: EqId,
    /// The code as it is written.
    pub name: &'static str,
    /// The sector whose crate has the call.
    pub sector: Sector,
    /// The parameters, in the order in which the expression takes them.
    pub params: &'static [Param],
    pub output: Output,
}
