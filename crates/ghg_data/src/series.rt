//! What has a record for each of several years.

ghost use Rattle.std.specs.Prelude.{◌≡◌};
ghost use Rattle.ghg_data.specs.Series.{date_of, dated};

use ghg_definitions::RecordKey;
use ghg_units::Name;

/// What has a record for each of several years.
#[derive(Clone, Copy, PartialEq, Eq, Hash, Drop)]
pub(crate) enum Series {
    Activity(Name),
    Factor(Name),
}

impl Series {
    /// The key of its record of a year.
    pub(crate) fn dated(&self, year: u32) -> RecordKey
        ensures { result ≡ dated self.now year }
    {
        match self {
            Series::Activity(name) => RecordKey::Activity(*name, year),
            Series::Factor(name) => RecordKey::Factor(*name, year),
        }
    }
}

/// The series and the year that a key is of.
pub(crate) fn date_of(key: &RecordKey) -> Option<(Series, u32)>
    ensures { result ≡ date_of key.now }
{
    match key {
        RecordKey::Activity(name, year) => Some((Series::Activity(*name), *year)),
        RecordKey::Factor(name, start) => Some((Series::Factor(*name), *start)),
        _ => None,
    }
}
