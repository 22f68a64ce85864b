// A carry or a borrow of one goes up the words only as far as it reaches: it stops where it stops, and seldom goes through all 33.
ghost use Rattle.std.specs.Prelude.{◌+◌, ◌*◌, ◌^◌, ◌<◌, ◌≤◌, length};
ghost use Rattle.words.specs.Words.{word_bits};
ghost use Rattle.words.specs.Ways.{Gone};
ghost use Rattle.lists.specs.Carry.{two, Carried};

use super::way::{Adding, Taking, Way};

// Adds or takes one at the word `from`, or nothing, and answers what goes out of the top.
// The carry is looked at before the end of the words: it seldom goes on, and the other order takes longer.
fn up<W: Way>(words: &mut [u64], from: usize, carry: u64) -> u64
    requires { (from ≤ length words.old) × (carry ≤ 1) }
    ensures { Gone W.adds word_bits words.old (carry * 2 ^ (word_bits * from)) words.new (length words.old) result }
{
    let mut c = carry;
    if c == 0 {
        return 0;
    }
    for i in from..words.len() {
        let next = W::step(words[i], 0, c);
        words[i] = next.word;
        c = next.carry;
        if c == 0 {
            return 0;
        }
    }
    c
}

// Adds or takes lo at the word k and hi at the next, and answers what goes out of the top.
fn at<W: Way>(words: &mut [u64], k: usize, lo: u64, hi: u64) -> u64
    requires { k + 1 < length words.old }
    ensures { Gone W.adds word_bits words.old (two word_bits k lo hi) words.new (length words.old) result }
{
    let low = W::step(words[k], lo, 0);
    words[k] = low.word;
    let high = W::step(words[k + 1], hi, low.carry);
    words[k + 1] = high.word;
    up::<W>(words, k + 2, high.carry)
}

// Adds a carry at the word `from`, and answers the carry out of the top.
// A carry is 0 or 1, and there is no word above the top to add it at.
pub fn carry_up(words: &mut [u64], from: usize, carry: u64) -> u64
    requires { (from ≤ length words.old) × (carry ≤ 1) }
    ensures { Carried word_bits words.old (carry * 2 ^ (word_bits * from)) words.new (length words.old) result }
{
    up::<Adding>(words, from, carry)
}

// Takes a borrow at the word `from`, and answers the borrow out of the top. What is required is as above.
pub fn borrow_up(words: &mut [u64], from: usize, borrow: u64) -> u64
    requires { (from ≤ length words.old) × (borrow ≤ 1) }
    ensures { Carried word_bits words.new (borrow * 2 ^ (word_bits * from)) words.old (length words.old) result }
{
    up::<Taking>(words, from, borrow)
}

// Adds lo at the word k and hi at the next, and answers the carry out of the top. The two words have to be there.
pub fn add_at(words: &mut [u64], k: usize, lo: u64, hi: u64) -> u64
    requires { k + 1 < length words.old }
    ensures { Carried word_bits words.old (two word_bits k lo hi) words.new (length words.old) result }
{
    at::<Adding>(words, k, lo, hi)
}

// Takes lo from the word k and hi from the next, and answers the borrow out of the top. The two words have to be there.
pub fn sub_at(words: &mut [u64], k: usize, lo: u64, hi: u64) -> u64
    requires { k + 1 < length words.old }
    ensures { Carried word_bits words.new (two word_bits k lo hi) words.old (length words.old) result }
{
    at::<Taking>(words, k, lo, hi)
}
