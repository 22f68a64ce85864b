// One word of the register, by rules G3 and F5: wrapped, and the carry found by comparison with an operand. The library's carrying_add compares
// with what is left of a word instead.
ghost use Rattle.std.specs.Prelude.{◌≤◌};
ghost use Rattle.words.specs.Words.{word_bits};
ghost use Rattle.lists.specs.Carry.{Carries};

#[derive(Drop)]
pub struct Sum {
    pub word: u64,
    pub carry: u64,
}

// a + b + carry. Two comparisons are needed: with b = 2^64 - 1 and a carry of 1 the last wrapped sum is a again.
// Only a carry of 0 or 1 leaves one of 0 or 1.
pub fn add_word(a: u64, b: u64, carry: u64) -> Sum
    requires { carry ≤ 1 }
    ensures { Carries word_bits a b carry result.word result.carry }
{
    let s = a.wrapping_add(b);
    let word = s.wrapping_add(carry);
    let carry = u64::from((s < a) | (word < s));
    Sum { word, carry }
}

// a - b - borrow, with the borrow out. Only a borrow of 0 or 1 leaves one of 0 or 1.
pub fn sub_word(a: u64, b: u64, borrow: u64) -> Sum
    requires { borrow ≤ 1 }
    ensures { Carries word_bits result.word b borrow a result.carry }
{
    let s = a.wrapping_sub(b);
    let word = s.wrapping_sub(borrow);
    let carry = u64::from((a < s) | (s < word));
    Sum { word, carry }
}
