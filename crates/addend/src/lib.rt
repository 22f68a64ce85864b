// Additions and withdrawals of any finite number, also above 2^1000, as the parts of a sum need them: what leaves 2112 bits is cut off.
#![tactic(auto)]

use crate::place::place;
use kinds::{Floating, SIGN};
use words::ripple::{add_at, sub_at};

pub mod place;
pub mod sides;

ghost use Rattle.std.specs.Prelude.{◌≡◌, T, ◌+ℤ◌, ◌-ℤ◌, length};
ghost use Rattle.std.specs.Float.Ieee.{of_bits};
ghost use Rattle.std.specs.Float.Ieee.Scale.{finite};
ghost use Rattle.addend.specs.OppositePattern.{opposite};
ghost use Rattle.kinds.specs.Limits.{doubles};
ghost use Rattle.words.specs.Words.{word_count, whole_of, words_of};
ghost use Rattle.addend.specs.Addend.{units_of};

// A NaN or an infinity has no units, and the place of a number is one of 33 words.
pub fn add<F: Floating>(words: &mut [u64], p: F::Pattern)
    requires { (length words.old ≡ word_count) × T (finite (of_bits F.width.format (F.pattern p))) }
    ensures { words.new ≡ words_of (whole_of words.old +ℤ units_of F.width (F.pattern p)) }
{
    let at = place::<F>(F::word(p));
    if F::word(p) < F::SIGN {
        add_at(words, at.word, at.lo, at.hi);
    } else {
        sub_at(words, at.word, at.lo, at.hi);
    }
}

// The pattern of the opposite number.
pub fn opposite(p: u64) -> u64
    ensures { result ≡ opposite doubles.format p }
{
    p ^ SIGN
}

// A withdrawal is the addition of the opposite number. What is required is as above.
pub fn withdraw(words: &mut [u64], p: u64)
    requires { (length words.old ≡ word_count) × T (finite (of_bits doubles.format p)) }
    ensures { words.new ≡ words_of (whole_of words.old -ℤ units_of doubles p) }
{
    add::<f64>(words, opposite(p));
}
