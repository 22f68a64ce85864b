// Powers of two: the least one at or above a number, and the float of one. All is read off patterns, and no float is scaled (rule E5).
#![tactic(auto)]

ghost use Rattle.std.specs.Prelude.{◌≡◌, false, ◌*◌, ◌<◌, T};
ghost use Rattle.std.specs.Float.Ieee.{hid, ones};
ghost use Rattle.std.specs.Float.Ieee.Scale.{finite};
ghost use Rattle.units.specs.Rounding.{ceil};
ghost use Rattle.ieee.specs.Units.{magnitude, negative, pattern_units};
ghost use Rattle.exponent.specs.Power.{powers, power_of};

use kinds::Floating;

// The float that is 2^k units, 2^(k - 1074). From 2^2098 units on there is none.
pub fn power<F: Floating>(k: u32) -> F
    requires { k < powers F.width.format }
    ensures { F.value result ≡ power_of F.width.format k }
{
    let digits = F::DIGITS;
    if k < digits {
        return F::from_bits(F::from_word(1 << k));
    }
    F::from_bits(F::from_word(u64::from(k + 1 - digits) << digits))
}

// Rule F4: the first power of two, 2^e units, that a pattern's magnitude doesn't exceed. The pattern has no sign, and stands for a number.
fn exponent<F: Floating>(p: u64) -> u32
    requires { p < ones F.width.format * hid F.width.format }
    ensures { result ≡ ceil (pattern_units F.width.format p) }
{
    if p == 0 {
        return 0;
    }
    let digits = F::DIGITS;
    let least_normal = 1 << digits;
    if p < least_normal {
        return u64::BITS - (p - 1).leading_zeros();
    }
    let field = (p / least_normal) as u32;
    if p % least_normal == 0 {
        return field + digits - 1;
    }
    field + digits
}

// e of rule WO3, counted in units.
pub fn ceiling<F: Floating>(mu: F) -> u32
    requires { T (finite (F.value mu)) × (negative (F.value mu) ≡ false) }
    ensures { result ≡ ceil (magnitude F.width.format (F.value mu)) }
{
    exponent::<F>(F::word(mu.bits()))
}
