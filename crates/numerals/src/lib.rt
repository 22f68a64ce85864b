// A text in a lent area, and what is put behind it: bytes, words and numbers.
#![tactic(auto)]

ghost use Rattle.std.specs.Prelude.{◌≡◌, ◌++◌, ◌+◌, ◌≤◌, ◌<◌, length};
ghost use Rattle.numerals.specs.Put.{Put};
ghost use Rattle.numerals.specs.Numerals.{decimal_of, capital_of, capitals_of, hex_of};

// A text in a lent area: the bytes before its end.
#[derive(Drop)]
pub struct Text<'a> {
    pub area: &'a mut [u8],
    pub end: usize,
}

impl<'a> Text<'a> {
    // No text yet.
    pub fn new(area: &'a mut [u8]) -> Text<'a>
        ensures same { result.area.ghost_name ≡ area.entry.ghost_name }
        ensures area { result.area.now ≡ area.old }
        ensures end { result.end ≡ 0 }
    {
        Text { area, end: 0 }
    }

    // Puts bytes behind the text.
    pub fn put(&mut self, bytes: &[u8]) -> &mut Text<'a>
        requires { self.old.end + length bytes.now ≤ length self.old.area.now }
        ensures itself { result.ghost_name ≡ self.entry.ghost_name }
        ensures longer { Put bytes.now self.old result.now }
    {
        let end = self.end + bytes.len();
        let area = &mut *self.area;
        area[self.end..end].copy_from_slice(bytes);
        self.end = end;
        self
    }

    // A word, and a number in decimal.
    pub fn decimal(&mut self, word: &[u8], n: u64) -> &mut Text<'a>
        requires { self.old.end + length word.now + length (decimal_of n) ≤ length self.old.area.now }
        ensures itself { result.ghost_name ≡ self.entry.ghost_name }
        ensures longer { Put (word.now ++ decimal_of n) self.old result.now }
    {
        let mut digits = [0u8; 20];
        let k = io::decimal(n, &mut digits);
        self.put(word).put(&digits[0..k])
    }

    // A word, and a pattern as rule P3 spells it.
    pub fn pattern(&mut self, word: &[u8], p: u64) -> &mut Text<'a>
        requires { self.old.end + length word.now + 16 ≤ length self.old.area.now }
        ensures itself { result.ghost_name ≡ self.entry.ghost_name }
        ensures longer { Put (word.now ++ hex_of p) self.old result.now }
    {
        let mut digits = [0u8; 16];
        capitals(p, &mut digits);
        self.put(word).put(&digits)
    }
}

// A digit below 16. The kit's hex digits are lower case.
fn capital(digit: u64) -> u8
    requires { digit < 16 }
    ensures { result ≡ capital_of digit }
{
    if digit < 10 {
        b'0' + digit as u8
    } else {
        b'A' - 10 + digit as u8
    }
}

// Fills an area with the lowest hex digits of a pattern, from the last place on, since the last digit is the remainder.
fn capitals(p: u64, digits: &mut [u8])
    ensures { digits.new ≡ capitals_of (length digits.old) p }
{
    let mut rest = p;
    for i in (0..digits.len()).rev() {
        digits[i] = capital(rest % 16);
        rest /= 16;
    }
}
