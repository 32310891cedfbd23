//! Whole units in a product, by multiplications: a division of 64 bits by a constant is compiled to one, and
//! three of them take a fraction of the time of a division of 128 bits.

ghost use Rattle.std.specs.Prelude.{◌≡◌, ◌≤◌, ◌*◌, ◌+◌, ◌/◌, ◌%◌, ◌<◌};
ghost use Rattle.ghg_interval.specs.Bounds.{unit_scale, bound_limit};

// The unit, 10^12, is 2^12 times 5^12.
const POWER_OF_TWO: u128 = 4_096;

const POWER_OF_FIVE: u64 = 244_140_625;

// How many limbs there are, and pairs of limbs: 2^32 and 2^64.
const LIMBS: u64 = 4_294_967_296;

const PAIRS: u128 = 18_446_744_073_709_551_616;

/// A product over the unit, rounded down: long division in limbs of 32 bits.
pub fn whole_units(n: u128) -> u128
    requires { n ≤ unit_scale * bound_limit }
    ensures { result ≡ n / unit_scale }
{
    let shifted = n / POWER_OF_TWO;
    let high = (shifted / PAIRS) as u64;
    let middle = joined(high % POWER_OF_FIVE, limb(shifted / u128::from(LIMBS)));
    let low = joined(middle % POWER_OF_FIVE, limb(shifted));
    u128::from(high / POWER_OF_FIVE) * PAIRS
        + u128::from(middle / POWER_OF_FIVE) * u128::from(LIMBS)
        + u128::from(low / POWER_OF_FIVE)
}

// The lowest limb.
fn limb(n: u128) -> u64
    ensures { result ≡ n % LIMBS }
{
    (n % u128::from(LIMBS)) as u64
}

// What is left of the limbs above, and the next limb.
fn joined(left: u64, limb: u64) -> u64
    requires left_in { left < POWER_OF_FIVE }
    requires limb_in { limb < LIMBS }
    ensures { result ≡ left * LIMBS + limb }
{
    left * LIMBS + limb
}
