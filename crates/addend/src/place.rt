// A finite number by its significand and its shift; and where it lies in the register: shifted, the significand is two adjacent words.
ghost use Rattle.std.specs.Prelude.{◌≡◌, ◌+◌, ◌*◌, ◌^◌, ◌<◌, T};
ghost use Rattle.std.specs.Float.Ieee.{of_bits};
ghost use Rattle.std.specs.Float.Ieee.Scale.{finite};
ghost use Rattle.lists.specs.Carry.{two};
ghost use Rattle.words.specs.Words.{word_bits, word_count};
ghost use Rattle.addend.specs.Addend.{AtWord, Scaled};

use kinds::Floating;

#[derive(Drop)]
pub struct Shift {
    pub significand: u64,
    pub by: u64,
}

// The magnitude of a finite number in units. A NaN or an infinity has none. A pattern is looked at in a word.
pub fn scaled<F: Floating>(p: u64) -> Shift
    requires { T (finite (of_bits F.width.format p)) }
    ensures { Scaled F.width.format p result.significand result.by }
{
    let least_normal = 1u64 << F::DIGITS;
    let magnitude = p % F::SIGN;
    let field = magnitude / least_normal;
    let digits = magnitude % least_normal;
    if field == 0 {
        return Shift {
            significand: digits,
            by: 0,
        };
    }
    Shift {
        significand: least_normal + digits,
        by: field - 1,
    }
}

#[derive(Drop)]
pub struct Pair {
    pub word: usize,
    pub lo: u64,
    pub hi: u64,
}

// m * 2^e. An exponent field has 11 bits. No shift by 64: at a shift of 0 the upper word is m / 2 / 2^63.
pub fn shifted(m: u64, e: u64) -> Pair
    requires { e < 2048 }
    ensures { (result.word + 1 < word_count) × (two word_bits result.word result.lo result.hi ≡ m * 2 ^ e) }
{
    let s = (e % 64) as u32;
    Pair {
        word: (e / 64) as usize,
        lo: m << s,
        hi: (m >> 1) >> (63 - s),
    }
}

// The words of a finite number's magnitude. What is required is as above.
pub fn place<F: Floating>(p: u64) -> Pair
    requires { T (finite (of_bits F.width.format p)) }
    ensures { AtWord F.width.format p result.word result.lo result.hi }
{
    let number = scaled::<F>(p);
    shifted(number.significand, number.by)
}
