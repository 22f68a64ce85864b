// Whether a sum left the range, read from the top bits before and after.
ghost use Rattle.std.specs.Prelude.{◌≡◌, ◌-◌, ◌<◌, length};
ghost use Rattle.words.specs.Words.{word_count};
ghost use Rattle.register.specs.Signs.{sign_bit, leaves, crosses};

use kinds::SIGN;
use words::WORDS;

// The sign of the register. It has to have its words.
pub fn sign(words: &[u64]) -> u64
    requires { length words.now ≡ word_count }
    ensures { result ≡ sign_bit words.now }
{
    words[WORDS - 1] >> 63
}

// Adding a number without a sign leaves the range where the top bit was clear and is set afterwards, adding a negative one where it was set and is clear
// afterwards.
pub fn left(p: u64, before: u64, after: u64) -> bool
    ensures { result ≡ leaves p before after }
{
    if p < SIGN {
        before < after
    } else {
        after < before
    }
}

// Two numbers of one sign leave the range where their sum has the other. Of different signs none does.
pub fn crossed(a: u64, b: u64, sum: u64) -> bool
    ensures { result ≡ crosses a b sum }
{
    (a == b) & (sum != a)
}
