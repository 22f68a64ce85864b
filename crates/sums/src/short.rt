// The exact sum of a short list: its positive and its negative numbers in words of their own, and one subtraction.
ghost use Rattle.std.specs.Prelude.{◌≡◌, ◌+◌, ◌≤◌, length};
ghost use Rattle.kinds.specs.Limits.{doubles};
ghost use Rattle.judge.specs.Table.{Allowed};
ghost use Rattle.lists.specs.Digits.{number, Digits};
ghost use Rattle.words.specs.Words.{word_bits, word_count, words_of};
ghost use Rattle.addend.specs.Sides.{side_by_side};
ghost use Rattle.sums.specs.Sums.{sum_of};
ghost use Rattle.sums.specs.ListSides.{list_sides};

use addend::sides;
use words::WORDS;

// Adds every number of an allowed list to empty words, those of the negative numbers behind those of the positive ones.
fn gather(list: &[u64], both: &mut [u64])
    requires { (length both.old ≡ word_count + word_count) × (number word_bits both.old ≡ 0) × Allowed doubles list.now × (length list.now ≤ doubles.length) }
    ensures { (number word_bits both.new ≡ side_by_side (list_sides doubles list.now)) × Digits word_bits both.new }
{
    for &p in list {
        sides::add(both, p);
    }
}

// The words of an allowed list's sum.
pub fn total(list: &[u64], words: &mut [u64])
    requires { (length words.old ≡ word_count) × Allowed doubles list.now × (length list.now ≤ doubles.length) }
    ensures { words.new ≡ words_of (sum_of doubles.format list.now) }
{
    let mut both = [0u64; 2 * WORDS];
    gather(list, &mut both);
    sides::settle(&both, words);
}
