// The float nearest to a register.
#![tactic(auto)]

use crate::bits::{float, nearest_bits};
use kinds::Floating;

pub mod bits;
pub mod head;
pub mod magnitude;
pub mod pattern;

ghost use Rattle.std.specs.Prelude.{◌≡◌, ◌<◌, length, unsigned_abs};
ghost use Rattle.ieee.specs.Units.{limit, nearest_float};
ghost use Rattle.words.specs.Words.{word_count, whole_of};

// A zero gets the sign `zero`. The callers hold 33 words of their own, and know that the nearest float is finite: the sum of an allowed list is far below
// the limit, and so is what is left of it after a part.
pub fn nearest_float<F: Floating>(register: &[u64], zero: bool) -> F
    requires { (length register.now ≡ word_count) × (unsigned_abs (whole_of register.now) < limit F.width.format) }
    ensures { F.value result ≡ nearest_float F.width.format zero (whole_of register.now) }
{
    float(nearest_bits::<F>(register, zero))
}
