// The double nearest to what words hold, and on which side of zero they are.
ghost use Rattle.std.specs.Prelude.{◌≡◌, false, ◌<◌, nat_abs, length};
ghost use Rattle.std.specs.Float.{binary64};
ghost use Rattle.std.specs.Float.Ieee.{to_bits};
ghost use Rattle.ieee.specs.Units.{limit, sign_of, nearest_float};
ghost use Rattle.words.specs.Words.{word_count, whole_of};

use nearest::nearest_float;
use words::{TOP, WORDS};

// Its pattern. Callers hold a register's words, and below the limit the nearest double is finite.
pub fn nearest_pattern(words: &[u64]) -> u64
    requires { (length words.now ≡ word_count) × (nat_abs (whole_of words.now) < limit binary64) }
    ensures { result ≡ to_bits binary64 (nearest_float binary64 false (whole_of words.now)) }
{
    nearest_float::<f64>(words, false).to_bits()
}

// Whether the number is below zero; the top word tells it. Its place is one of a register's words.
pub fn is_negative(words: &[u64]) -> bool
    requires { length words.now ≡ word_count }
    ensures { result ≡ sign_of false (whole_of words.now) }
{
    TOP <= words[WORDS - 1]
}
