//! What holds of brackets alone.

ghost use Rattle.ghg_roots.specs.Laws.{DecayBracketsAreExact};

/// For each half-life in tenths of a year there is exactly one decay bracket, which the definition of decay
/// bounds gives. 1024 times the power of its lower bound by the tenths is at most one, 1024 times that of its
/// upper bound is at least one, and it is at most 1025 parts in 10^12 wide.
pub fn decay_brackets_are_exact()
    ensures { DecayBracketsAreExact }
{}
