// The exact sum of a list, in a register's words.
ghost use Rattle.std.specs.Prelude.{◌≡◌, ◌≤◌, eqb, length, replicate};
ghost use Rattle.kinds.specs.Limits.{doubles};
ghost use Rattle.judge.specs.Table.{Allowed};
ghost use Rattle.words.specs.Words.{word_bits, word_count, words_of};
ghost use Rattle.lists.specs.Digits.{number};
ghost use Rattle.sums.specs.Sums.{sum_of};

use crate::{few, long, short};
use kinds::Floating;

// A width whose lists have a total.
pub trait Totals: Floating {
    // The words of a list's sum, in words that are zero. Of an allowed list only: a NaN or an infinity has no units.
    fn total(list: &[Self::Pattern], words: &mut [u64])
        requires { (words.old ≡ replicate word_count 0) × Allowed Self.width (Self.patterns list.now) × (length list.now ≤ Self.width.length) }
        ensures { words.new ≡ words_of (sum_of Self.width.format (Self.patterns list.now)) };
}

impl Totals for f64 {
    fn total(list: &[u64], words: &mut [u64]) {
        total(list, words);
    }
}

// Singles are added by a branch on each sign: no bar of speed is set for them.
impl Totals for f32 {
    fn total(list: &[u32], words: &mut [u64]) {
        few::total::<f32>(list, words);
    }
}

// Below so many numbers one register is faster than one for each sign.
const FEW: usize = 32;

// From so many numbers on lanes are faster than words, whatever the numbers are: settling lanes costs what some hundred additions to words cost more than to
// lanes.
const LONG: usize = 128;

// The words of a list's sum, in words that are zero. Of an allowed list only: a NaN or an infinity has no units.
pub fn total(list: &[u64], words: &mut [u64])
    requires { (words.old ≡ replicate word_count 0) × Allowed doubles list.now × (length list.now ≤ doubles.length) }
    ensures { words.new ≡ words_of (sum_of doubles.format list.now) }
{
    if list.len() < FEW {
        few::total::<f64>(list, words);
    } else if list.len() < LONG {
        short::total(list, words);
    } else {
        long::total(list, words);
    }
}

// Whether all words are zero.
pub fn is_zero(words: &[u64]) -> bool
    ensures { result ≡ eqb (number word_bits words.now) 0 }
{
    words.iter().all(|w| *w == 0)
}
