//! What a desk is asked for.

use ghg_units::Text;

/// A command to a desk.
#[derive(Drop)]
pub enum Command {
    /// The submission of a body under an id.
    Submit { id: Text, body: Text },
    /// The request for a table of a year.
    Show { table: Text, year: u32 },
    /// To keep the present values of all years under a name.
    Freeze { name: Text },
    /// To set the values of a year that were kept under a name beside those that hold now.
    Recalc { name: Text, year: u32 },
    /// The request for the uncertainty of the trend from the base year to a year.
    Trend { year: u32 },
}
