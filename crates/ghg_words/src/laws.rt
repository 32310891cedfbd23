//! Laws of command lines.

ghost use Rattle.ghg_words.specs.Laws.{OptionsStandInAnyOrder};

/// The order and the spelling of options decide nothing.
#[tactic(auto, using(crate::proofs::Orders::any_order))]
pub fn options_stand_in_any_order()
    ensures { OptionsStandInAnyOrder }
{}
