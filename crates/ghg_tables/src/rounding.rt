//! Rounding to the nearest.

ghost use Rattle.std.specs.Prelude.{◌≡◌, ◌≤◌, ◌<◌, ◌^◌, unsigned_abs};
ghost use Rattle.ghg_tables.specs.Rounding.{nearest, nearest_magnitude};

/// The whole number nearest to n over d, ties away from zero.
pub fn near(n: i128, d: u128) -> i128
    requires divisor { 1 ≤ d }
    requires bounded { unsigned_abs n < 2 ^ 127 }
    ensures { result ≡ nearest d n }
{
    let magnitude = near_magnitude(n.unsigned_abs(), d) as i128;
    if n < 0 { -magnitude } else { magnitude }
}

// The same for a number that is not below zero.
fn near_magnitude(n: u128, d: u128) -> u128
    requires { 1 ≤ d }
    ensures value { result ≡ nearest_magnitude d n }
    ensures small { result ≤ n }
{
    let below = n / d;
    let rest = n % d;
    if rest < d - rest { below } else { below + 1 }
}
