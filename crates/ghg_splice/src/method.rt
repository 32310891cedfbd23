//! The techniques.

ghost use Rattle.std.specs.Prelude.{◌≡◌};
ghost use Rattle.ghg_splice.specs.Texts.{method_named, method_word};

/// A technique of splicing (2006 IPCC Guidelines, Volume 1, Chapter 5).
#[derive(Clone, Copy, Debug, PartialEq, Eq, Drop)]
pub enum Method {
    /// `linear`: years between two known ones, by linear interpolation.
    Linear,
    /// `surrogate`: in proportion to another series, from the first year that has both.
    Surrogate,
    /// `overlap`: in proportion to another series, by the mean ratio of all years that have both.
    Overlap,
}

impl Method {
    /// The technique that a word names.
    pub fn named(word: &str) -> Option<Method>
        ensures { result ≡ method_named word.now }
    {
        match word {
            "linear" => Some(Method::Linear),
            "surrogate" => Some(Method::Surrogate),
            "overlap" => Some(Method::Overlap),
            _ => None,
        }
    }

    /// The word of the technique.
    pub fn word(self) -> &'static str
        ensures { result.now ≡ method_word self }
    {
        match self {
            Method::Linear => "linear",
            Method::Surrogate => "surrogate",
            Method::Overlap => "overlap",
        }
    }
}
