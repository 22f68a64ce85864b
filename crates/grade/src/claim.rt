// A claim's pattern beside that of the nearest double.
ghost use Rattle.std.specs.Prelude.{◌≡◌, cond, ◌+◌, ◌-◌, ◌<◌, T, leb, eqb, ◌-ℤ◌, nat_abs};
ghost use Rattle.std.specs.Float.{binary64};
ghost use Rattle.std.specs.Float.Ieee.{top, of_bits};
ghost use Rattle.std.specs.Float.Ieee.Scale.{finite};
ghost use Rattle.ieee.specs.Units.{value};

use kinds::SIGN;

// Whether two finite patterns are of one number: -0 is 0 (rule Q1). A NaN or an infinity is no number.
pub fn same_number(p: u64, q: u64) -> bool
    requires { T (finite (of_bits binary64 p)) × T (finite (of_bits binary64 q)) }
    ensures { result ≡ eqb (nat_abs (value binary64 (of_bits binary64 p) -ℤ value binary64 (of_bits binary64 q))) 0 }
{
    (p == q) | ((p % SIGN == 0) & (q % SIGN == 0))
}

// The pattern next to p, towards what is missing from p: below p where `below` says so, else above it. Patterns of one sign rise away from zero. Of a finite
// number that isn't 0, so that there is a pattern on either side.
pub fn other_side(p: u64, below: bool) -> u64
    requires { (0 < p) × T (finite (of_bits binary64 p)) }
    ensures { result ≡ cond (leb (top binary64) p) (cond below (p + 1) (p - 1)) (cond below (p - 1) (p + 1)) }
{
    if (SIGN <= p) == below {
        return p + 1;
    }
    p - 1
}
