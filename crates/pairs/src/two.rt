// The two numbers of a pair: the rounded product and its exact error, by Algorithm 1.1 of 000, whose line (1.1) has a + b for a · b.
ghost use Rattle.std.specs.Prelude.{◌≡◌};
ghost use Rattle.std.specs.Float.Ieee.{mul, to_bits};
ghost use Rattle.kinds.specs.Limits.{doubles};
ghost use Rattle.ieee.specs.ErrorFree.{upper_half, lower_half, product_error};
ghost use Rattle.pairs.specs.Limits.{double_pairs};
ghost use Rattle.pairs.specs.Pairs.{product_of, error_of, pair_fault};

use kinds::SIGN;

// Rule F12: 2^27 + 1, by which a number is split.
const SPLITTER: f64 = 134217729.0;

#[derive(Drop)]
pub struct Halves {
    pub upper: f64,
    pub lower: f64,
}

#[derive(Drop)]
pub struct Product {
    pub x: f64,
    pub y: f64,
}

// The patterns of a pair's product and error.
#[derive(Drop)]
pub struct Two {
    pub product: u64,
    pub error: u64,
}

// Algorithm 1.2. Each half has so few digits that the product of two of them has no rounding.
fn split(a: f64) -> Halves
    ensures { (result.upper ≡ upper_half doubles.format a) × (result.lower ≡ lower_half doubles.format a) }
{
    let c = SPLITTER * a;
    let upper = c - (c - a);
    Halves {
        upper,
        lower: a - upper,
    }
}

// Algorithm 1.1.
fn two_product(a: f64, b: f64) -> Product
    ensures { (result.x ≡ mul doubles.format a b) × (result.y ≡ product_error doubles.format a b) }
{
    let x = a * b;
    let f = split(a);
    let g = split(b);
    let y = f.lower * g.lower - (((x - f.upper * g.upper) - f.lower * g.upper) - f.upper * g.lower);
    Product { x, y }
}

// Rules M4 and M5. Rule M6: a pair with a zero in it makes +0 twice, and what is added to an error turns -0 into +0 and changes nothing else.
pub fn multiply(p: u64, q: u64) -> Two
    requires { pair_fault double_pairs (p, q) ≡ 0 }
    ensures { (result.product ≡ to_bits doubles.format (product_of doubles.format (p, q))) × (result.error ≡ to_bits doubles.format (error_of doubles.format (p, q))) }
{
    if (p % SIGN == 0) | (q % SIGN == 0) {
        return Two {
            product: 0,
            error: 0,
        };
    }
    let two = two_product(f64::from_bits(p), f64::from_bits(q));
    Two {
        product: two.x.to_bits(),
        error: (two.y + 0.0).to_bits(),
    }
}
