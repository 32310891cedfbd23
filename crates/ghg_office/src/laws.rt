//! What follows of the definitions alone.

ghost use Rattle.ghg_office.specs.Laws.{AcceptedListsRebuildStates, BoundsHoldInForce, RepeatsActOnce, ReplaysRebuildStates, StatesStayInForce};

/// The data of every state that submissions lead to from the start are a workbook without a ring in which
/// nothing is beyond the limits, and the accepted bodies are not beyond theirs.
pub fn states_stay_in_force()
    ensures { StatesStayInForce }
{}

/// A submission that was accepted is repeated with its number whenever it is given again, and changes
/// nothing.
pub fn repeats_act_once()
    ensures { RepeatsActOnce }
{}

/// The accepted submissions of every state that submissions lead to from the start, submitted in their order
/// to an office with no data, are all accepted, and lead to the same state.
pub fn accepted_lists_rebuild_states()
    ensures { AcceptedListsRebuildStates }
{}

/// Replayed, the accepted list of every state that submissions lead to from the start gives that state.
pub fn replays_rebuild_states()
    ensures { ReplaysRebuildStates }
{}

/// In the reply to each request for a table of the data in force the bounds hold the exact values of its
/// nodes.
pub fn bounds_hold_in_force()
    ensures { BoundsHoldInForce }
{}
