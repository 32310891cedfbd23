//! The brackets of decay factors that a book keeps.

ghost use Rattle.std.specs.Prelude.{◌≡◌, ◌==◌, [], ◌∷◌, IfSome, OnOk, find, option_copied};
ghost use Rattle.std.specs.List.{AllByRecursion};
ghost use Rattle.ghg_roots.specs.Decay.{decay_bounds};
ghost use Rattle.ghg_units.specs.WellFormed.{IsHalfLife, IsWellFormed};
ghost use Rattle.ghg_data.specs.HalfLives.{HasAlso, HasStill, half_life_of, half_lives_of};

use ghg_interval::Interval;
use ghg_roots::decay_bracket;
use ghg_units::{Amount, Row, RowForm};
use std::alloc::{AllocError, Global};

/// The bracket of the yearly decay factor of a half-life in tenths of a year.
#[derive(Drop)]
struct Bracket {
    half_life: u32,
    factor: Interval,
    ghost right: { factor ≡ decay_bounds half_life },
}

/// The brackets of half-lives that rows of submissions named. There are few of them.
#[derive(Drop)]
pub(crate) struct Brackets {
    kept: Vec<Bracket>,
}

impl Brackets {
    ghost use Rattle.ghg_data.specs.Brackets.{half_lives};

    /// None. It takes no memory.
    pub(crate) fn new(alloc: Global) -> Brackets
        ensures { half_lives result ≡ [] }
    {
        Brackets {
            kept: Vec::new(alloc),
        }
    }

    /// Keeps the brackets of the half-lives that rows name. What is kept stays with every answer.
    pub(crate) fn keep(&mut self, rows: &[Row]) -> Result<(), AllocError>
        requires { AllByRecursion IsWellFormed rows.now }
        ensures named { OnOk result (HasAlso (half_lives self.old) (half_lives self.new)
            (half_lives_of rows.now)) }
        ensures kept { HasStill (half_lives self.old) (half_lives self.new) }
    {
        for row in rows {
            self.keep_named(row)?;
        }
        Ok(())
    }

    // Keeps the bracket of the half-life that a row names, if it names one.
    fn keep_named(&mut self, row: &Row) -> Result<(), AllocError>
        requires { IsWellFormed row.now }
        ensures named { OnOk result (HasAlso (half_lives self.old) (half_lives self.new)
            (half_lives_of (row.now ∷ []))) }
        ensures kept { HasStill (half_lives self.old) (half_lives self.new) }
    {
        match half_life_of(row) {
            Some(half_life) => self.keep_one(half_life),
            None => Ok(()),
        }
    }

    fn keep_one(&mut self, half_life: u32) -> Result<(), AllocError>
        requires { IsHalfLife half_life }
        ensures named { OnOk result (HasAlso (half_lives self.old) (half_lives self.new) (half_life ∷ [])) }
        ensures kept { HasStill (half_lives self.old) (half_lives self.new) }
    {
        if self.find(half_life).is_none() {
            self.kept.push(Bracket {
                half_life,
                factor: decay_bracket(half_life),
            })?;
        }
        Ok(())
    }

    /// The bracket of a half-life, which is computed where it is not kept.
    pub(crate) fn get(&self, half_life: u32) -> Interval
        requires { IsHalfLife half_life }
        ensures { result ≡ decay_bounds half_life }
    {
        match self.find(half_life) {
            Some(bracket) => bracket.factor,
            None => decay_bracket(half_life),
        }
    }

    fn find(&self, half_life: u32) -> Option<&Bracket>
        ensures kept { option_copied result ≡ find (λ b. b.half_life == half_life) self.now.kept.items }
        ensures right { IfSome result (λ b. b.now.half_life ≡ half_life) }
    {
        self.kept
            .iter()
            .find(|bracket| bracket.half_life == half_life)
    }
}

// The half-life that a row names, if it names one.
fn half_life_of(row: &Row) -> Option<u32>
    requires { IsWellFormed row.now }
    ensures named { result ≡ half_life_of row.now.form }
    ensures sound { IfSome result IsHalfLife }
{
    match &row.form {
        RowForm::Factor(_, _, Some(figure)) => match figure.amount {
            Amount::HalfLife(half_life) => Some(half_life),
            _ => None,
        },
        _ => None,
    }
}
