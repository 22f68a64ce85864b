// The exact sum of pairs' products, in a register's words.
ghost use Rattle.std.specs.Prelude.{◌≡◌, ◌+ℤ◌, length};
ghost use mathlib.Core.List.{zip};
ghost use Rattle.kinds.specs.Limits.{doubles};
ghost use Rattle.words.specs.Words.{word_count, whole_of, words_of};
ghost use Rattle.sums.specs.Sums.{sum_of};
ghost use Rattle.pairs.specs.Limits.{double_pairs};
ghost use Rattle.pairs.specs.Pairs.{products_of};
ghost use Rattle.pairs.specs.Table.{AllowedPairs, Matching};

use crate::two::multiply;

// Adds both numbers of each pair to the words, so that no list of them is needed.
pub fn total(a: &[u64], b: &[u64], words: &mut [u64])
    requires { Matching double_pairs a.now b.now × AllowedPairs double_pairs a.now b.now × (length words.old ≡ word_count) }
    ensures { words.new
        ≡ words_of (whole_of words.old +ℤ sum_of doubles.format (products_of doubles.format (zip a.now b.now))) }
{
    for (&p, &q) in a.iter().zip(b) {
        let two = multiply(p, q);
        addend::add::<f64>(words, two.product);
        addend::add::<f64>(words, two.error);
    }
}
