// The place of the first work number that is not sound.
ghost use Rattle.std.specs.Prelude.{◌≡◌, true, false, ◌-◌, ◌<◌, T, length, IfSome, unwrap_or};
ghost use Rattle.std.specs.Float.Ieee.Scale.{finite};
ghost use Rattle.units.specs.Rounding.{ceil};
ghost use Rattle.ieee.specs.Units.{negative, magnitude};
ghost use Rattle.exponent.specs.Power.{power_of};
ghost use Rattle.lists.specs.Every.{every};
ghost use Rattle.kinds.specs.Limits.{exponent_of};
ghost use Rattle.kinds.specs.Answers.{as_state};
ghost use Rattle.sound.specs.Sound.{at_most, sound_numbers};
ghost use Rattle.sound.specs.Places.{first_above};

use crate::numbers::at_most;
use kinds::{Floating, State};

// 2^-M sigma. Of a sound sigma, which is a power of two that reaches 2^M units.
pub fn limit<F: Floating>(s: State<F>) -> F
    requires { sound_numbers F.width (as_state F.value s) ≡ true }
    ensures { F.value result
        ≡ power_of F.width.format (ceil (magnitude F.width.format (F.value s.sigma)) - exponent_of s.n) }
{
    exponent::power(exponent::ceiling(s.sigma) - kinds::exponent(s.n))
}

// Whether every work number is within the limit: finite and of magnitude at most it. The loop isn't left early, so that several are looked at together. It
// stands alone: in the gate, behind all its tests, it counts as seldom reached and isn't aligned, and takes up to twice as long.
#[inline(never)]
fn within<F: Floating>(work: &[F], limit: F) -> bool
    requires { T (finite (F.value limit)) × (negative (F.value limit) ≡ false) }
    ensures { result ≡ every (at_most F.width (magnitude F.width.format (F.value limit))) (F.values work.now) }
{
    let mut good = true;
    for x in work {
        good = good & at_most(*x, limit);
    }
    good
}

// The place of the first work number that isn't within the limit, by a search that ends there.
fn first_above<F: Floating>(work: &[F], limit: F) -> Option<usize>
    requires { T (finite (F.value limit)) × (negative (F.value limit) ≡ false) }
    ensures inside { IfSome result (λ place. place < length work.now) }
    ensures first { unwrap_or result (length work.now)
        ≡ first_above F.width (magnitude F.width.format (F.value limit)) (F.values work.now) }
{
    work.iter().position(|x| !at_most(*x, limit))
}

// The place of the first work number that isn't both finite and of magnitude at most the limit. It is searched for only where there is one.
pub fn bad_place<F: Floating>(work: &[F], limit: F) -> Option<usize>
    requires { T (finite (F.value limit)) × (negative (F.value limit) ≡ false) }
    ensures inside { IfSome result (λ place. place < length work.now) }
    ensures first { unwrap_or result (length work.now)
        ≡ first_above F.width (magnitude F.width.format (F.value limit)) (F.values work.now) }
{
    if within(work, limit) {
        return None;
    }
    first_above(work, limit)
}
