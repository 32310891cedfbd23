//! Laws of the definitions.

ghost use Rattle.std.specs.Prelude.{◌≡◌};
ghost use Rattle.ghg_splice.specs.declared.splicing.TheConstants.{MAX_BODY};
ghost use Rattle.ghg_splice.specs.Laws.{FillsHoldExactFractions};

/// For every choice of exact fractions inside the supplied bounds, the fractions that the formula of a
/// technique gives of them are inside the bounds of what fills the years.
pub fn fills_hold_exact_fractions()
    ensures { FillsHoldExactFractions }
{}

/// The longest series, in bytes.
pub fn limit_is_number()
    ensures { MAX_BODY ≡ 65_536 }
{}
