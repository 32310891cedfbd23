//! Numbers that a seed decides.

ghost use Rattle.std.specs.Prelude.{◌≡◌, ◌<◌};
ghost use Rattle.ghg_generator.specs.Draws.{drawn, next};

/// Goes on to the next number, and draws at it.
pub(crate) fn draw(number: &mut u32) -> u32
    ensures number { number.new ≡ next number.old }
    ensures drawn { result ≡ drawn number.new }
    ensures small { result < 65536 }
{
    *number = ((1_103_515_245 * u64::from(*number) + 12_345) % 2_147_483_648) as u32;
    *number / 65_536
}
