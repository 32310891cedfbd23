//! What changed at a leaf in a year.

ghost use Rattle.std.specs.Prelude.{◌≡◌};
ghost use Rattle.ghg_shifts.specs.Noted.{HasRoom, less, more, nothing};

use crate::sum::Sum;
use ghg_cell::Input;
use ghg_interval::Over;

/// What went from a leaf of the tree of categories in a year, and what came to it.
#[derive(Clone, Copy, Debug)]
pub struct Shift {
    pub went: Sum,
    pub came: Sum,
    /// One of the equivalents that came is over.
    pub over: bool,
}

impl Shift {
    /// Nothing went and nothing came.
    pub fn nothing() -> Shift
        ensures { result ≡ nothing }
    {
        Shift {
            went: Sum::zero(),
            came: Sum::zero(),
            over: false,
        }
    }

    /// Takes away what a line gave.
    pub(crate) fn go(&mut self, gave: &Input)
        requires { HasRoom self.old }
        ensures { self.new ≡ less gave.now self.old }
    {
        self.went.add(gave);
    }

    /// Adds what a line gives, which may be over.
    pub(crate) fn come(&mut self, gives: Result<Input, Over>)
        requires { HasRoom self.old }
        ensures { self.new ≡ more gives self.old }
    {
        match gives {
            Ok(input) => self.came.add(&input),
            Err(Over) => self.over = true,
        }
    }
}
