//! Laws of sessions.

ghost use Rattle.ghg_run.specs.Reviewing.{ReviewsAreSound};
ghost use Rattle.ghg_run.specs.Sound.{RepliesAreSound};

/// From each state in force the bounds that a session prints, whatever is requested, hold the exact values of
/// the data in force then.
#[tactic(auto, using(crate::proofs::Held::sound_replies))]
pub fn replies_are_sound()
    ensures { RepliesAreSound }
{}

/// So do those that a review prints in the tables of the office, and at the end of the trend's uncertainty.
#[tactic(auto, using(crate::proofs::Reviewed::sound_reviews))]
pub fn reviews_are_sound()
    ensures { ReviewsAreSound }
{}
