// The pattern of the float nearest to a number of units, by its leading digits.
ghost use Rattle.std.specs.Prelude.{◌≡◌, ◌*◌, ◌^◌, ◌<◌, ◌≤◌};
ghost use Rattle.std.specs.Float.{binary64};
ghost use Rattle.std.specs.Float.Ieee.{prec};
ghost use Rattle.units.specs.Rounding.{dropped};
ghost use Rattle.nearest.specs.Sticky.{closest_over};
ghost use Rattle.nearest.specs.Bits.{head_bits};

use crate::head::{Head, size};
use kinds::Floating;
use std::cmp::Ordering;

// How many digits of x a significand has no room for.
fn excess<F: Floating>(x: u64) -> u64
    ensures { result ≡ dropped (prec F.width.format) x }
{
    size(x).saturating_sub(u64::from(F::DIGITS + 1))
}

// x / 2^d to the nearest whole number, a tie to the even one. A rest below x moves it off a tie. A double's significand has room for what is left of x, so
// that one more fits a word.
fn quotient(x: u64, d: u64, rest: bool) -> u64
    requires { (d < 64) × (x < 2 ^ prec binary64 * 2 ^ d) }
    ensures { result ≡ closest_over rest x (2 ^ d) }
{
    let q = x >> d;
    let unit = 1 << d;
    let twice = x % unit * 2 + u64::from(rest);
    match twice.cmp(&unit) {
        Ordering::Less => q,
        Ordering::Equal => q + q % 2,
        Ordering::Greater => q + 1,
    }
}

// The digits dropped, times the weight of the exponent's field, plus the rounded quotient. 33 words have 2,048 digits below their leading 64 at most.
pub fn pattern<F: Floating>(h: Head) -> u64
    requires { h.below ≤ 2048 }
    ensures { result ≡ head_bits F.width.format h }
{
    let x = h.digits;
    let d = excess::<F>(x);
    ((h.below + d) << F::DIGITS) + quotient(x, d, h.rest)
}
