//! Laws of reviews.

ghost use Rattle.ghg_review.specs.Replies.{review};
ghost use Rattle.ghg_session.specs.Session.{WhatIsLeftDecides};

/// If the input tells what is left to be read, that decides what a review writes, and how a review ends that
/// comes to its end.
pub fn what_is_left_decides()
    ensures { WhatIsLeftDecides review }
{}
