//! What holds of brackets alone.

ghost use Rattle.ghg_uncertainty.specs.Brackets.{BracketsAreRoots, TotalsAreSmall, TotalsHoldRoots};

/// The bracket of a root is the root rounded down and rounded up.
pub fn brackets_are_roots()
    ensures { BracketsAreRoots }
{}

/// The bounds of the uncertainty of a total are within a limit.
pub fn totals_are_small()
    ensures { TotalsAreSmall }
{}

/// What is the uncertainty of a total holds its root.
pub fn totals_hold_roots()
    ensures { TotalsHoldRoots }
{}
