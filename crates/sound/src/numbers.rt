// The numbers of a sound state, its pending set excepted, and that set.
ghost use Rattle.std.specs.Prelude.{◌≡◌, true, false, not, ◌&&◌, ◌≤◌, ◌<◌, T};
ghost use Rattle.std.specs.Float.Ieee.Scale.{finite};
ghost use Rattle.units.specs.Rounding.{ceil};
ghost use Rattle.ieee.specs.Units.{magnitude, negative};
ghost use Rattle.kinds.specs.Answers.{as_state};
ghost use Rattle.judge.specs.Table.{size_of};
ghost use Rattle.exponent.specs.Power.{powers};
ghost use Rattle.sound.specs.Sound.{sound_sigma, at_most, sound_largest, sound_numbers, sound_pending};
ghost use Rattle.sound.specs.SigmaLaws.{is_power_from};

use kinds::{Floating, State};

// Whether x is finite and no larger than the limit. A NaN passes no comparison, so it fails this one.
pub fn at_most<F: Floating>(x: F, limit: F) -> bool
    requires { T (finite (F.value limit)) × (negative (F.value limit) ≡ false) }
    ensures { result ≡ at_most F.width (magnitude F.width.format (F.value limit)) (F.value x) }
{
    (-limit).at_most(x) & x.at_most(limit)
}

// The exponent of the largest magnitude of a list, counted in units.
fn top<F: Floating>() -> u32
    ensures { result ≡ ceil (size_of F.width F.width.magnitude) }
{
    exponent::ceiling(F::from_bits(F::from_word(F::MAGNITUDE)))
}

// Whether a number is 2^k units with k at least m: whether its pattern is that of the power of two at its own exponent (rule F4).
fn power_from<F: Floating>(x: F, m: u32) -> bool
    requires { T (finite (F.value x)) × (ceil (magnitude F.width.format (F.value x)) < powers F.width.format) }
    ensures { result ≡ is_power_from F.width.format m (F.value x) }
{
    let p = F::word(x.bits());
    if F::SIGN <= p {
        return false;
    }
    let k = exponent::ceiling(x);
    let power: F = exponent::power(k);
    (m <= k) & (F::word(power.bits()) == p)
}

// Rule WS6: no bits are taken of a NaN, so sigma is held to the greatest one as a float; the least, a subnormal number, is compared with by exponents. M is
// asked of lists that aren't too long.
pub fn sigma<F: Floating>(sigma: F, n: usize) -> bool
    requires { n ≤ F.width.length }
    ensures { result ≡ sound_sigma F.width n (F.value sigma) }
{
    let m = kinds::exponent(n);
    at_most(sigma, exponent::power(m + top::<F>())) && power_from(sigma, m)
}

// Whether x is finite, no larger than the limit, and has no sign: +0 will do, and -0 won't.
fn unsigned_at_most<F: Floating>(x: F, limit: F) -> bool
    requires { T (finite (F.value limit)) × (negative (F.value limit) ≡ false) }
    ensures { result
        ≡ (at_most F.width (magnitude F.width.format (F.value limit)) (F.value x) && not (negative (F.value x))) }
{
    at_most(x, limit) && F::word(x.bits()) < F::SIGN
}

// Rule WS15, of a sound sigma: 2^k units. Where eps times sigma is less than a unit, only +0 will do.
pub fn largest<F: Floating>(x: F, sigma: F, n: usize) -> bool
    requires { (n ≤ F.width.length) × (sound_sigma F.width n (F.value sigma) ≡ true) }
    ensures { result ≡ sound_largest F.width (F.value sigma) (F.value x) }
{
    let eps = F::DIGITS + 1;
    let k = exponent::ceiling(sigma);
    if k < eps {
        return unsigned_at_most(x, F::zero());
    }
    unsigned_at_most(x, exponent::power(k - eps))
}

// Rules WS3, WS4, WS6, WS7 and WS15.
pub fn numbers<F: Floating>(s: State<F>) -> bool
    ensures { result ≡ sound_numbers F.width (as_state F.value s) }
{
    if s.n < 1 {
        return false;
    }
    if F::LENGTH < s.n {
        return false;
    }
    if !sigma(s.sigma, s.n) {
        return false;
    }
    let limit = F::from_bits(F::from_word(F::CARRIED));
    (s.rounds <= F::ROUNDS)
        & at_most(s.t, limit)
        & at_most(s.tau, limit)
        & largest(s.largest, s.sigma, s.n)
}

// Rule WS5. Asked of an n that `numbers` has tested: then B is 1 to 64.
pub fn pending<F: Floating>(s: State<F>) -> bool
    requires { (1 ≤ s.n) × (s.n ≤ F.width.length) }
    ensures { result ≡ sound_pending F.width (as_state F.value s) }
{
    (0 < s.pending) & (s.pending <= bitset::full(kinds::blocks(s.n)))
}
