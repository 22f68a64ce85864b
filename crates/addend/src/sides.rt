// The magnitudes of positive and of negative numbers, each in a register's words of its own: whose words a number goes to is arithmetic on its sign and no
// branch, since a branch on signs that come in no order is guessed wrong half of the time.
ghost use Rattle.std.specs.Prelude.{◌≡◌, ◌+◌, T, pos, ◌-ℤ◌, length, take, drop};
ghost use Rattle.std.specs.Float.Ieee.{of_bits};
ghost use Rattle.std.specs.Float.Ieee.Scale.{finite};
ghost use Rattle.kinds.specs.Limits.{doubles};
ghost use Rattle.lists.specs.Carry.{Carried};
ghost use Rattle.lists.specs.Digits.{number};
ghost use Rattle.words.specs.Words.{word_bits, word_count, whole_of, words_of};
ghost use Rattle.addend.specs.Sides.{sides_of, side_by_side};

use crate::place::place;
use words::ripple::add_at;
use words::{WORDS, columns};

// Adds a number's magnitude to the words of its sign, those of the negative numbers behind those of the positive ones, and answers the carry out of all.
pub fn add(words: &mut [u64], p: u64) -> u64
    requires { (length words.old ≡ word_count + word_count) × T (finite (of_bits doubles.format p)) }
    ensures { Carried word_bits words.old (side_by_side (sides_of doubles p)) words.new (length words.old) result }
{
    let at = place::<f64>(p);
    add_at(words, at.word + WORDS * ((p >> 63) as usize), at.lo, at.hi)
}

// The positive numbers' words less the negative ones', cut off at 2112 bits. Both areas have their lengths.
pub fn settle(both: &[u64], words: &mut [u64])
    requires { (length both.now ≡ word_count + word_count) × (length words.old ≡ word_count) }
    ensures { words.new ≡ words_of (whole_of (take word_count both.now) -ℤ pos (number word_bits (drop word_count both.now))) }
{
    let (positive, negative) = both.split_at(WORDS);
    columns::sub(positive, negative, words);
}
