// The magnitude of a register's number.
ghost use Rattle.std.specs.Prelude.{◌≡◌, ◌-◌, ◌*◌, ◌^◌, ◌<◌, length};
ghost use Rattle.lists.specs.Digits.{number};
ghost use Rattle.words.specs.Words.{word_bits};

// The negation in two's complement: each word's complement, and one added to the lowest. The carry out of each word is read from the wrapped sum. It is
// asked of negative numbers alone: zero would carry out of the top.
pub fn negate(register: &[u64], words: &mut [u64])
    requires { (length words.old ≡ length register.now) × (0 < number word_bits register.now) }
    ensures { number word_bits words.new ≡ 2 ^ (word_bits * length register.now) - number word_bits register.now }
{
    let mut carry = 1;
    for (i, word) in register.iter().enumerate() {
        let t = (!*word).wrapping_add(carry);
        carry = u64::from(t < carry);
        words[i] = t;
    }
}
