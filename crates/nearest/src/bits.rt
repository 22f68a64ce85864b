// The bits of the float nearest to a register.
ghost use Rattle.std.specs.Prelude.{◌≡◌, ◌+◌, ◌*◌, ◌<◌, length, if◌then◌else◌, from_bits};
ghost use Rattle.std.specs.Float.Ieee.{hid, ones, top};
ghost use Rattle.words.specs.Words.{word_count, whole_of};
ghost use Rattle.nearest.specs.Bits.{bits_of};

use crate::head::leading;
use crate::magnitude::negate;
use crate::pattern::pattern;
use kinds::Floating;
use words::{TOP, WORDS};

// A float's sign, and its pattern without the sign.
#[derive(Drop)]
pub struct Bits {
    pub negative: bool,
    pub magnitude: u64,
}

// The bits of the float nearest to the number of a register, whose length the callers know. Where that float isn't finite, the pattern is the infinity's or
// a larger one. A zero gets the sign `zero`.
pub fn nearest_bits<F: Floating>(register: &[u64], zero: bool) -> Bits
    requires { length register.now ≡ word_count }
    ensures { result ≡ bits_of F.width.format zero (whole_of register.now) }
{
    if register[WORDS - 1] < TOP {
        let p = pattern::<F>(leading(register));
        return Bits {
            negative: zero & (p == 0),
            magnitude: p,
        };
    }
    let mut words = [0u64; WORDS];
    negate(register, &mut words);
    Bits {
        negative: true,
        magnitude: pattern::<F>(leading(&words)),
    }
}

// The float with these bits, which the callers know to be a finite one's.
pub fn float<F: Floating>(b: Bits) -> F
    requires { b.magnitude < ones F.width.format * hid F.width.format }
    ensures { F.value result ≡ from_bits F.width.format ((if b.negative then top F.width.format else 0) + b.magnitude) }
{
    let sign = if b.negative { F::SIGN } else { 0 };
    F::from_bits(F::from_word(sign + b.magnitude))
}
