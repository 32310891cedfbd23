//! Laws of sessions.

ghost use Rattle.ghg_session.specs.Replies.{protocol};
ghost use Rattle.ghg_session.specs.Session.{WhatIsLeftDecides};

/// If the input tells what is left to be read, that decides what a session writes, and how a session ends
/// that comes to its end.
pub fn what_is_left_decides()
    ensures { (stored : _) → WhatIsLeftDecides (protocol stored) }
{}
