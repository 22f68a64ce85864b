// A width of float, as the code that serves both sees it.
ghost use Rattle.std.specs.Prelude.{◌≡◌, ℕ, not, ◌%◌, ◌*◌, ◌^◌, ◌<◌, T, map, List, Float, max};
ghost use Rattle.std.specs.Ordering.{float_partial_cmp};
ghost use Rattle.std.specs.Mem.{type_size};
ghost use Rattle.std.specs.Float.Ieee.{is_nan, nan_bits, fits, of_bits, to_bits, top, add, sub, neg, eq, le};
ghost use Rattle.kinds.specs.Limits.{Width};
ghost use Rattle.kinds.specs.Known.{Known};

use crate::limits::{Doubles, Singles};
use std::ops::{Add, Neg, Sub};

// binary64 or binary32: the arithmetic that a walk does, each operation rounded once, and the limits on lists. The definitions speak of one type of float, and of
// patterns as numbers.
pub trait Floating: Copy
    + Drop
    + Add<Output = Self>
    + Sub<Output = Self>
    + Neg<Output = Self>
    + PartialOrd {
    // A pattern: 64 bits or 32.
    type Pattern: Copy + Drop;

    ghost width: { Width };

    // A float and a pattern, and a list of either, as in the definitions.
    ghost value: { Self → Float };

    ghost values: { List Self → List Float };

    ghost pattern: { Self.Pattern → ℕ };

    ghost patterns: { List Self.Pattern → List ℕ };

    // How many digits of a significand a pattern stores; its field stands above them.
    const DIGITS: u32;

    ghost DIGITS: { ℕ };

    // What the sign adds to a pattern, and the pattern of the infinity: from it on, a pattern without its sign stands for no number. Both as words.
    const SIGN: u64;

    ghost SIGN: { ℕ };

    const INFINITY: u64;

    ghost INFINITY: { ℕ };

    // The limits on lists, and on sound states; of the patterns as words.
    const LENGTH: usize;

    ghost LENGTH: { ℕ };

    const MAGNITUDE: u64;

    ghost MAGNITUDE: { ℕ };

    const CARRIED: u64;

    ghost CARRIED: { ℕ };

    const ROUNDS: u32;

    ghost ROUNDS: { ℕ };

    // +0
    fn zero() -> Self
        ensures { value result ≡ of_bits width.format 0 };

    // That the width holds this float: for proofs alone, no code.
    fn held(self)
        ensures { T (fits width.format (value self)) };

    // The pattern of a float. No bits are taken of a NaN.
    fn bits(self) -> Self::Pattern
        requires { T (not (is_nan (value self))) }
        ensures bits { pattern result ≡ to_bits width.format (value self) }
        ensures held { T (fits width.format (value self)) };

    fn from_bits(p: Self::Pattern) -> Self
        requires { T (not (nan_bits width.format (pattern p))) }
        ensures { value result ≡ of_bits width.format (pattern p) };

    // A pattern without its sign. Such patterns are in the order of their magnitudes.
    fn unsigned(p: Self::Pattern) -> Self::Pattern
        ensures { pattern result ≡ pattern p % top width.format };

    // The larger of two patterns.
    fn larger(p: Self::Pattern, q: Self::Pattern) -> Self::Pattern
        ensures { pattern result ≡ max (pattern p) (pattern q) };

    // Whether a float is at most another: a NaN is at most nothing, and nothing is at most a NaN. `<=` of a type parameter asks for the whole order first, and in a
    // loop over an area that takes twice as long.
    fn at_most(self, other: Self) -> bool
        ensures test { result ≡ le (value self) (value other) }
        ensures held { T (fits width.format (value self)) × T (fits width.format (value other)) };

    // A pattern as a word, and back.
    fn word(p: Self::Pattern) -> u64
        ensures word { result ≡ pattern p }
        ensures below { result < 2 * top width.format };

    fn from_word(p: u64) -> Self::Pattern
        requires { p < 2 * top width.format }
        ensures { pattern result ≡ p };

    ghost known: { Known width DIGITS SIGN INFINITY LENGTH MAGNITUDE CARRIED ROUNDS };

    // The operators and comparisons are IEEE 754's.
    ghost can_add_law: { (x y : Self) → Self.can_add x y };

    ghost added: { (x y z : Self) → Self.add_gives x y z → value z ≡ add width.format (value x) (value y) };

    ghost can_sub_law: { (x y : Self) → Self.can_sub x y };

    ghost subtracted: { (x y z : Self) → Self.sub_gives x y z → value z ≡ sub width.format (value x) (value y) };

    ghost can_neg_law: { (x : Self) → Self.can_neg x };

    ghost negated: { (x y : Self) → Self.neg_gives x y → value y ≡ neg (value x) };

    ghost ordered: { (x y : Self) → Self.partial_cmp x y ≡ float_partial_cmp (value x) (value y) };

    ghost alike: { (x y : Self) → Self.eq x y ≡ eq (value x) (value y) };

    // An array of a few has a size.
    ghost small: { type_size Self.row < 2 ^ 32 };

    ghost each_value: { (xs : List Self) → values xs ≡ map value xs };

    ghost each_pattern: { (ps : List Self.Pattern) → patterns ps ≡ map pattern ps };
}
