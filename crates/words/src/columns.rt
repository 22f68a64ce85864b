// Two numbers of as many words, added or subtracted word by word from the lowest, as columns of digits are on paper.
ghost use Rattle.std.specs.Prelude.{◌≡◌, length};
ghost use Rattle.words.specs.Words.{word_bits};
ghost use Rattle.words.specs.Ways.{Gone};
ghost use Rattle.lists.specs.Digits.{number};
ghost use Rattle.lists.specs.Carry.{Carried};

use super::way::{Adding, Taking, Way};

// Writes the words of a with those of b added or taken, and answers what goes out of the top.
fn columns<W: Way>(a: &[u64], b: &[u64], out: &mut [u64]) -> u64
    requires { (length b.now ≡ length a.now) × (length out.old ≡ length a.now) }
    ensures { Gone W.adds word_bits a.now (number word_bits b.now) out.new (length a.now) result }
{
    let mut carry = 0;
    for i in 0..a.len() {
        let column = W::step(a[i], b[i], carry);
        out[i] = column.word;
        carry = column.carry;
    }
    carry
}

// Writes the words of a + b, and answers the carry out of the top. All three have the same length.
pub fn add(a: &[u64], b: &[u64], sum: &mut [u64]) -> u64
    requires { (length b.now ≡ length a.now) × (length sum.old ≡ length a.now) }
    ensures { Carried word_bits a.now (number word_bits b.now) sum.new (length a.now) result }
{
    columns::<Adding>(a, b, sum)
}

// Writes the words of a - b, and answers the borrow out of the top. All three have the same length.
pub fn sub(a: &[u64], b: &[u64], difference: &mut [u64]) -> u64
    requires { (length b.now ≡ length a.now) × (length difference.old ≡ length a.now) }
    ensures { Carried word_bits difference.new (number word_bits b.now) a.now (length a.now) result }
{
    columns::<Taking>(a, b, difference)
}
