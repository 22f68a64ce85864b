// A weight in grains of 2^-30, and back: integers alone, read off a pattern's field and digits.
ghost use Rattle.std.specs.Prelude.{◌≡◌, ◌*◌, ◌≤◌};
ghost use Rattle.std.specs.Float.Ieee.{emax, hid};
ghost use Rattle.kinds.specs.Limits.{doubles};
ghost use Rattle.weights.specs.Weights.{grains, weight_good, weight_of, pattern_for};

use kinds::{DIGITS, LEAST_NORMAL};

// rule V1: 1 in grains
pub const GRAINS: u64 = 1 << 30;

// the patterns of 1 and of a grain
const ONE: u64 = 0x3FF0_0000_0000_0000;

const GRAIN: u64 = 0x3E10_0000_0000_0000;

// the bits of a word above a significand
const ABOVE: u32 = u64::BITS - 1 - DIGITS;

// The grains of a pattern up to that of 1. Below a grain's there is none; from there on the field tells how many digits of the significand are below a grain.
pub fn grains_of(p: u64) -> u64
    requires { p ≤ emax doubles.format * hid doubles.format }
    ensures { (result ≡ weight_of doubles p) × (result ≤ grains) }
{
    if p < GRAIN {
        return 0;
    }
    (LEAST_NORMAL + p % LEAST_NORMAL) >> (1045 - p / LEAST_NORMAL)
}

// The pattern of k grains, 1 at most: its digits moved up to where a significand has its leading one, which counts as one more in the field.
pub fn pattern(k: u64) -> u64
    requires { k ≤ grains }
    ensures { result ≡ pattern_for doubles k }
{
    if k == 0 {
        return 0;
    }
    let up = u64::from(k.leading_zeros() - ABOVE);
    ((1044 - up) << DIGITS) + (k << up)
}

// Rule V1. None above 1 is good, and no negative one, whose pattern is above that of 1; of the others those that are whole grains.
pub fn is_weight(p: u64) -> bool
    ensures { result ≡ weight_good doubles p }
{
    if ONE < p {
        return false;
    }
    pattern(grains_of(p)) == p
}
