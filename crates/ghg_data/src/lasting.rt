//! What a factor gives in years that follow each other.

ghost use Rattle.std.specs.Prelude.{◌≡◌, ◌⊎◌, ◌<◌, ◌-◌, ◌^◌, MatchOption};
ghost use Rattle.ghg_cell.specs.declared.input.Input.TheVariants.{Blank};
ghost use Rattle.ghg_data.specs.Lasting.{HasYear};

use ghg_cell::Input;

/// What a factor gives in each of some years that follow each other.
#[derive(Clone, Copy, Drop)]
pub struct Lasting {
    /// The first of these years.
    pub first: u32,
    /// The last of them.
    pub last: u32,
    /// What it gives.
    pub input: Input,
}

impl Lasting {
    /// A blank in all years.
    pub fn blank() -> Lasting
        ensures first { result.first ≡ 0 }
        ensures last { result.last ≡ 2 ^ 32 - 1 }
        ensures input { result.input ≡ Blank }
    {
        Lasting {
            first: 0,
            last: u32::MAX,
            input: Input::Blank,
        }
    }

    /// What the factor gives in a year, if that is one of these.
    pub fn in_year(&self, year: u32) -> Option<Input>
        ensures { MatchOption result ((year < self.now.first) ⊎ (self.now.last < year))
            (λ input. (input ≡ self.now.input) × HasYear self.now year) }
    {
        if self.first <= year && year <= self.last {
            Some(self.input)
        } else {
            None
        }
    }
}
