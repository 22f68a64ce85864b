// Where a number goes among lanes by sign: its lane, the digit that it adds there, and what it has above the digit.
ghost use Rattle.std.specs.Prelude.{◌≡◌, ◌+◌, ◌*◌, ◌/◌, ◌%◌, ◌^◌, ◌≤◌, ◌<◌, T};
ghost use Rattle.std.specs.Float.Ieee.{of_bits};
ghost use Rattle.std.specs.Float.Ieee.Scale.{finite};
ghost use Rattle.kinds.specs.Limits.{doubles};
ghost use Rattle.sums.specs.SignLanes.{lane_bits, AtLane};

use kinds::{LEAST_NORMAL, SIGN};
use lanes::Lanes;

// The lanes of one sign.
pub const SIDE: usize = 64;

// The base of the digits that lanes hold.
pub const BASE: u64 = 1 << Lanes::BITS;

#[derive(Drop)]
pub struct Place {
    pub lane: usize,
    pub low: u64,
    pub above: u64,
}

// A significand m, and a pattern q in whose exponent's field stands the shift: the sign and the field's upper six bits are the lane, its lower five the shift
// within the lane.
fn cut(m: u64, q: u64) -> Place
    requires { m < 2 ^ 53 }
    ensures { (result.lane ≡ q / 2 ^ 57) × (result.low + result.above * 2 ^ lane_bits ≡ m * 2 ^ (q / 2 ^ 52 % 32)) × (result.low < 2 ^ lane_bits) × (result.above ≤ 2 ^ 52) }
{
    let s = (q / LEAST_NORMAL % 32) as u32;
    Place {
        lane: (q >> 57) as usize,
        low: (m << s) % BASE,
        above: m >> (Lanes::BITS - s),
    }
}

// A field of 0 has no leading digit and asks for no shift, a field of 1 for none either.
pub fn lane(p: u64) -> Place
    requires { T (finite (of_bits doubles.format p)) }
    ensures { AtLane p result.lane result.low result.above }
{
    let digits = p % LEAST_NORMAL;
    if p % SIGN < LEAST_NORMAL {
        return cut(digits, p);
    }
    cut(LEAST_NORMAL + digits, p - LEAST_NORMAL)
}
