// One lane: whether it has room, a digit put into it, and what it keeps and hands on when it is settled.
ghost use Rattle.std.specs.Prelude.{◌≡◌, ◌^◌, ◌≤◌, ◌<◌, leb, pos, nat_abs, ◌+ℤ◌};
ghost use Rattle.lists.specs.Digits.{inside};
ghost use Rattle.lanes.specs.Lanes.{lane_bits, most_calls, lane_limit};
ghost use Rattle.lanes.specs.Settle.{lane_digit, handed_on};
ghost use Rattle.lanes.specs.Three.{with_sign};

use crate::Lanes;

// The base of the digits that lanes hold.
pub const BASE: u64 = 1 << Lanes::BITS;

// The bits of one digit.
const DIGIT: i64 = (1 << Lanes::BITS) - 1;

// Half of the base: the top lane is from its opposite to below it.
const HALF: i64 = 1 << (Lanes::BITS - 1);

// Whether a lane's magnitude is at most a limit. The lane is compared and never negated: -2^63 has no opposite.
pub fn within(lane: i64, limit: u64) -> bool
    requires { limit < 2 ^ 63 }
    ensures { result ≡ leb (nat_abs lane) limit }
{
    let most = limit as i64;
    (-most <= lane) & (lane <= most)
}

// 1, or -1 for a pattern with the sign: by arithmetic, since a branch on signs that come in no order is guessed wrong half of the time.
pub fn sign(p: u64) -> i64
    ensures { result ≡ with_sign p 1 }
{
    1 - 2 * ((p >> 63) as i64)
}

// A digit with the sign of a pattern.
pub fn with_sign(p: u64, d: u64) -> i64
    requires { d < 2 ^ lane_bits }
    ensures { result ≡ with_sign p d }
{
    sign(p) * (d as i64)
}

// A lane and what is put into it: either is far from the ends of 64 bits.
pub fn plus(lane: i64, d: i64) -> i64
    requires { (nat_abs lane ≤ lane_limit most_calls) × (nat_abs d ≤ 2 ^ lane_bits) }
    ensures { result ≡ lane +ℤ d }
{
    lane + d
}

// What a lane hands on when it is settled: the shift rounds down, also below zero.
pub fn handed_on(t: i64) -> i64
    ensures { result ≡ handed_on t }
{
    t >> Lanes::BITS
}

// What it keeps: the lowest 32 bits, from 0 on also below zero.
pub fn rest(t: i64) -> i64
    ensures { result ≡ pos (lane_digit t) }
{
    t & DIGIT
}

// The digit of a settled lane. A negative one, as the top lane may be, has its digit in two's complement.
pub fn digit(t: i64) -> u64
    ensures { (result ≡ lane_digit t) × (result < 2 ^ lane_bits) }
{
    rest(t) as u64
}

// Whether the top lane is one of 32 bits and a sign: rule N5.
pub fn fits(t: i64) -> bool
    ensures { result ≡ inside lane_bits t }
{
    (-HALF..HALF).contains(&t)
}
