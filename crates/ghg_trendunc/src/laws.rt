//! What holds of the uncertainty of a trend alone.

ghost use Rattle.ghg_trendunc.specs.Sound.{TrendsAreSound};
ghost use Rattle.ghg_trendunc.specs.Totals.{TrendTotalsHoldRoots};

/// The uncertainty of a trend holds the root of the exact sum: the squares of both bounds are on its sides.
pub fn trend_totals_hold_roots()
    ensures { TrendTotalsHoldRoots }
{}

/// The two bounds at the end of the table hold that root, in hundredths of a percent, unless they are dashes.
#[tactic(auto, using(crate::proofs::Sound::trends_sound))]
pub fn trends_are_sound()
    ensures { TrendsAreSound }
{}
