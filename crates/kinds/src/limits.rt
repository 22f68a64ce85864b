// The limits on lists, at each width of float.
ghost use Rattle.std.specs.Prelude.{◌≡◌, ◌+◌, ◌^◌, ◌<◌, ◌≤◌};
ghost use Rattle.kinds.specs.Limits.{doubles, singles, exponent_of, blocks_of, Tied};

// How many numbers a block holds, for code that serves both widths.
pub const BLOCK: usize = Doubles::BLOCK;

// A list of binary64 patterns, by its length. Rules L6 and F3: the limits on lists, and those on sound states, are constants of this type.
#[derive(Drop)]
pub struct Doubles {
    pub n: usize,
}

// A list of binary32 patterns, in the same way: rule Y2.
#[derive(Drop)]
pub struct Singles {
    pub n: usize,
}

// The same limits as values.
#[derive(Drop)]
pub struct Limits {
    pub length: usize,
    pub magnitude: u64,
    pub block: usize,
    pub parts: usize,
    pub carried: u64,
    pub rounds: u32,
}

impl Doubles {
    // rule L4
    pub const LENGTH: usize = 4094;

    // rule L5: the pattern of 2^1000
    pub const MAGNITUDE: u64 = 0x7E70_0000_0000_0000;

    // rule L8
    pub const BLOCK: usize = 64;

    // rule L10: the most
    pub const PARTS: usize = 8;

    // rule WS7: the pattern of 2^1012
    pub const CARRIED: u64 = 0x7F30_0000_0000_0000;

    // rule WS4
    pub const ROUNDS: u32 = 50;

    // Ties the constants to the definitions: where one of either moves, this is refused.
    pub fn limits() -> Limits
        ensures { Tied doubles result }
    {
        Limits {
            length: Self::LENGTH,
            magnitude: Self::MAGNITUDE,
            block: Self::BLOCK,
            parts: Self::PARTS,
            carried: Self::CARRIED,
            rounds: Self::ROUNDS,
        }
    }

    pub fn of(n: usize) -> Self
        ensures { result.n ≡ n }
    {
        Doubles { n }
    }

    // rule L7: M
    pub fn exponent(self) -> u32
        requires { self.n ≤ doubles.length }
        ensures { result ≡ exponent_of self.n }
    {
        exponent(self.n)
    }

    // rule L9: B
    pub fn blocks(self) -> usize
        requires { self.n ≤ doubles.length }
        ensures { result ≡ blocks_of doubles self.n }
    {
        blocks(self.n)
    }
}

impl Singles {
    // rule Y1
    pub const LENGTH: usize = 2046;

    // rule Y1: the pattern of 2^100
    pub const MAGNITUDE: u32 = 0x7180_0000;

    // rule L8
    pub const BLOCK: usize = Doubles::BLOCK;

    // the limits are one record for both widths; no call gives parts of singles
    pub const PARTS: usize = Doubles::PARTS;

    // rule Y2: the pattern of 2^111
    pub const CARRIED: u32 = 0x7700_0000;

    // rule Y2
    pub const ROUNDS: u32 = 19;

    // The pattern of 2^-126, the least normal single.
    pub const LEAST_NORMAL: u32 = 1 << 23;

    // Ties the constants to the definitions: where one of either moves, this is refused.
    pub fn limits() -> Limits
        ensures { Tied singles result }
    {
        Limits {
            length: Self::LENGTH,
            magnitude: u64::from(Self::MAGNITUDE),
            block: Self::BLOCK,
            parts: Self::PARTS,
            carried: u64::from(Self::CARRIED),
            rounds: Self::ROUNDS,
        }
    }

    pub fn of(n: usize) -> Self
        ensures { result.n ≡ n }
    {
        Singles { n }
    }

    // rule L7: M
    pub fn exponent(self) -> u32
        requires { self.n ≤ singles.length }
        ensures { result ≡ exponent_of self.n }
    {
        exponent(self.n)
    }

    // rule L9: B
    pub fn blocks(self) -> usize
        requires { self.n ≤ singles.length }
        ensures { result ≡ blocks_of singles self.n }
    {
        blocks(self.n)
    }
}

// rule L7: M of n numbers
pub fn exponent(n: usize) -> u32
    requires { n + 1 < 2 ^ 64 }
    ensures { result ≡ exponent_of n }
{
    let n = n as u64;
    64 - u64::leading_zeros(n + 1)
}

// rule L9: B of n numbers, blocks of one size at either width
pub fn blocks(n: usize) -> usize
    requires { n + 64 < 2 ^ 64 }
    ensures doubles { result ≡ blocks_of doubles n }
    ensures singles { result ≡ blocks_of singles n }
{
    (n + (BLOCK - 1)) / BLOCK
}
