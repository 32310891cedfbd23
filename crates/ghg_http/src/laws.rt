//! Laws of targets, of repeats and of the bytes of requests.

ghost use Rattle.std.specs.Prelude.{◌≡◌};
ghost use Rattle.ghg_http.specs.declared.head.TheConstants.{MAX_FIELDS, MAX_HEAD};
ghost use Rattle.ghg_http.specs.declared.request.TheConstants.{MAX_READ};
ghost use Rattle.ghg_http.specs.Laws.{FindsTargets, HoldsNoneEarly, HoldsOneRequest, RepliesToRepeats};

/// A request target asks for a submission exactly where its path is `/submissions/ID`, and for a table
/// exactly where it is `/tables/TABLE/YEAR`, of one segment for each of these words. No other path has a
/// route. What follows a question mark does not matter.
pub fn finds_targets()
    ensures { FindsTargets }
{}

/// A repeat of an accepted submission is replied to with 200 and its number, and changes nothing. It meets
/// neither a fault of the keeper nor want of memory at the office.
pub fn replies_to_repeats()
    ensures { RepliesToRepeats }
{}

/// Bytes hold at most one request. Only bytes that can begin no head may be refused in two ways, as malformed
/// and as too large: where 16,384 bytes break off in a request target, or where there are more than 64
/// fields.
pub fn holds_one_request()
    ensures { HoldsOneRequest }
{}

/// Bytes that end early hold no request. Only bytes that break off in a request target may also be refused,
/// as malformed, where no bytes can complete it; and only those with more than 64 fields, as too large.
pub fn holds_none_early()
    ensures { HoldsNoneEarly }
{}

/// The limits of a request: how many bytes its head has, and how many fields; and how many bytes one call of
/// a link is asked for.
pub fn limits_are_numbers()
    ensures head { MAX_HEAD ≡ 16_384 }
    ensures fields { MAX_FIELDS ≡ 64 }
    ensures read { MAX_READ ≡ 4_096 }
{}
