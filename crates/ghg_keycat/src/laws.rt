//! What holds of pairs alone.

ghost use Rattle.ghg_keycat.specs.Laws.{AscendingPairsAreDistinct, AssessmentsAreSmall, RankingsAreInOrder};

/// Pairs whose categories and gases ascend, as the keys of an ordered map do, are distinct.
pub fn ascending_pairs_are_distinct()
    ensures { AscendingPairsAreDistinct }
{}

/// A ranking of distinct pairs is the list of them in order.
pub fn rankings_are_in_order()
    ensures { RankingsAreInOrder }
{}

/// Where the magnitudes of pairs are within the limit, so are the numbers of their assessments.
pub fn assessments_are_small()
    ensures { AssessmentsAreSmall }
{}
