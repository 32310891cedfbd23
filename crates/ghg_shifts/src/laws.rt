//! Laws of the definitions.

ghost use Rattle.ghg_shifts.specs.Laws.{TotalsAreExchanged};
ghost use Rattle.ghg_shifts.specs.Progress.{ShiftsHaveRoom, TotalIsNoted, TotalsHaveShifts};

/// If nothing was over, a total of new data is what it was, less what went from the leaves under it, plus
/// what came to them. So is the gross total. It is over, and does not break, if an equivalent that came is
/// over. Otherwise it is over, and breaks, if that sum is beyond the limit.
pub fn totals_are_exchanged()
    ensures { TotalsAreExchanged }
{}

/// The shifts of workbooks have room for one more input.
pub fn shifts_have_room()
    ensures { ShiftsHaveRoom }
{}

/// A total has the shifts that it needs once all moved lines that it counts are noted.
pub fn total_is_noted()
    ensures { TotalIsNoted }
{}

/// So it has them once the edited lines are noted, and those of its inputs that had to be evaluated.
pub fn totals_have_shifts()
    ensures { TotalsHaveShifts }
{}
