// Products of pairs, each with its exact error, and weighted sums.
#![tactic(auto)]

use crate::two::multiply;
use kinds::Refusal;
use words::WORDS;

mod faults;
mod two;
mod weighted;

ghost use Rattle.std.specs.Prelude.{◌≡◌, ◌*◌, eqb, length};
ghost use mathlib.Core.List.{zip};
ghost use Rattle.kinds.specs.Limits.{doubles};
ghost use Rattle.kinds.specs.Answers.{as_nearest, itself};
ghost use Rattle.kinds.specs.Outcome.{outcome};
ghost use Rattle.pairs.specs.Answers.{as_paired};
ghost use Rattle.pairs.specs.Limits.{double_pairs, Tied};
ghost use Rattle.pairs.specs.Pairs.{products_of, multiplied_of, weighted_of};
ghost use Rattle.pairs.specs.Table.{AllowedPairs, Matching};

// Two lists of binary64 patterns by their length. Rule M3: the limits on pairs are constants of this type.
#[derive(Drop)]
pub struct Pairs {
    pub n: usize,
}

// The same limits as values.
#[derive(Drop)]
pub struct PairLimits {
    pub length: usize,
    pub least: u64,
    pub most: u64,
}

impl Pairs {
    // rule M1
    pub const LENGTH: usize = 2047;

    // rule M2: the patterns of 2^-400 and of 2^400
    pub const LEAST: u64 = 0x26F0_0000_0000_0000;

    pub const MOST: u64 = 0x58F0_0000_0000_0000;

    // Ties the constants to the definitions: where one of either moves, this is refused.
    pub fn limits() -> PairLimits
        ensures { Tied double_pairs result }
    {
        PairLimits {
            length: Self::LENGTH,
            least: Self::LEAST,
            most: Self::MOST,
        }
    }

    pub fn of(n: usize) -> Self
        ensures { result.n ≡ n }
    {
        Pairs { n }
    }

    // rule A2: whether an area of so many places has two for each pair
    pub fn fits(self, places: usize) -> bool
        ensures { result ≡ eqb places (2 * self.n) }
    {
        (places / 2 == self.n) & (places % 2 == 0)
    }
}

// Rule M7: the two numbers of each pair, at the places 2i and 2i + 1. They are written by place: of what is written through chunks_exact_mut no contract tells.
fn write(a: &[u64], b: &[u64], out: &mut [u64])
    requires { Matching double_pairs a.now b.now × AllowedPairs double_pairs a.now b.now × (length out.old ≡ 2 * length a.now) }
    ensures { out.new ≡ products_of doubles.format (zip a.now b.now) }
{
    for i in 0..a.len() {
        let two = multiply(a[i], b[i]);
        out[2 * i] = two.product;
        out[2 * i + 1] = two.error;
    }
}

// The products of pairs, each with its exact error.
pub fn products(a: &[u64], b: &[u64], out: &mut [u64]) -> Result<(), Refusal>
    ensures { outcome (as_paired result) out.new ≡ multiplied_of double_pairs a.now b.now out.old }
{
    let fits = Pairs::of(a.len()).fits(out.len());
    faults::judge(a, b, fits)?;
    write(a, b, out);
    Ok(())
}

// Rule M9: the nearest weighted sum. No product is zero but +0, so that a zero sum is +0.
pub fn nearest(a: &[u64], b: &[u64]) -> Result<f64, Refusal>
    ensures { as_nearest itself result ≡ weighted_of double_pairs a.now b.now }
{
    faults::judge(a, b, true)?;
    let mut words = [0u64; WORDS];
    weighted::total(a, b, &mut words);
    Ok(nearest::nearest_float(&words, false))
}
