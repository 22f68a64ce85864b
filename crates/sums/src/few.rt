// The exact sum of few numbers: each is added to one register's words or taken from them, by a branch on its sign. To clear and subtract a second register's
// words would take longer than the branches that are guessed wrong.
ghost use Rattle.std.specs.Prelude.{◌≡◌, ◌+ℤ◌, length};
ghost use Rattle.judge.specs.Table.{Allowed};
ghost use Rattle.words.specs.Words.{word_count, whole_of, words_of};
ghost use Rattle.sums.specs.Sums.{sum_of};

use kinds::Floating;

// Adds a list's numbers to the words. Of an allowed list only: a NaN or an infinity has no units.
pub fn total<F: Floating>(list: &[F::Pattern], words: &mut [u64])
    requires { (length words.old ≡ word_count) × Allowed F.width (F.patterns list.now) }
    ensures { words.new ≡ words_of (whole_of words.old +ℤ sum_of F.width.format (F.patterns list.now)) }
{
    for &p in list {
        addend::add::<F>(words, p);
    }
}
