// The leading digits of a number of many words.
ghost use Rattle.std.specs.Prelude.{◌≡◌, ◌+◌, ◌-◌, ◌*◌, ◌/◌, ◌^◌, ◌<◌, ◌≤◌, length, take, nat_lt};
ghost use Rattle.std.specs.Float.Ieee as Ieee;
ghost use Rattle.lists.specs.Digits.{number};
ghost use Rattle.lists.specs.LeadingDigits.{Used};
ghost use Rattle.words.specs.Words.{word_bits, word_count};
ghost use Rattle.nearest.specs.Head.{head_of};

// The leading 64 digits of a number, how many digits stand below them, and whether any of those is set.
#[derive(Drop)]
pub struct Head {
    pub digits: u64,
    pub below: u64,
    pub rest: bool,
}

// How many digits x has.
pub fn size(x: u64) -> u64
    ensures { result ≡ Ieee.size x }
{
    u64::from(u64::BITS - x.leading_zeros())
}

// How many of the n lowest words are in use; there are n or more. It looks no further than the highest that isn't zero.
fn used(words: &[u64], n: usize) -> usize
    requires { n ≤ length words.now }
    ensures { Used word_bits words.now n result }
{
    for k in (0..n).rev() {
        if words[k] != 0 {
            return k + 1;
        }
    }
    0
}

// The leading 64 digits of the words a and b, where a has y digits, one or more. No shift is by 64.
fn across(a: u64, b: u64, y: u64) -> u64
    requires { (0 < y) × (y ≤ word_bits) × (a < 2 ^ y) }
    ensures { result ≡ a * 2 ^ (word_bits - y) + b / 2 ^ y }
{
    (a << (64 - y)) + ((b >> 1) >> (y - 1))
}

// Whether anything stands in what was cut off a word or in the n words below it; there are n or more.
fn rest(cut: u64, words: &[u64], n: usize) -> bool
    requires { n ≤ length words.now }
    ensures { result ≡ nat_lt 0 (cut + number word_bits (take n words.now)) }
{
    cut != 0 || 0 < used(words, n)
}

// A number of one word is its own head. Any other has its leading digits in the two upper words in use. Callers hold a register's 33 words, so that the
// digits below can be counted.
pub fn leading(words: &[u64]) -> Head
    requires { length words.now ≡ word_count }
    ensures { result ≡ head_of (number word_bits words.now) }
{
    let n = used(words, words.len());
    if n < 2 {
        return Head {
            digits: words[0],
            below: 0,
            rest: false,
        };
    }
    let a = words[n - 1];
    let b = words[n - 2];
    let y = size(a);
    Head {
        digits: across(a, b, y),
        below: 64 * (n - 2) as u64 + y,
        rest: rest(b << (64 - y), words, n - 2),
    }
}
