// An addition and a settling with no look at all lanes: for the public calls, which have looked, and for whoever adds a list and knows the bound, as
// crates/timed does. The number may be any finite one, also above 2^1000.
ghost use Rattle.std.specs.Prelude.{◌≡◌, ◌+◌, ◌*◌, ◌^◌, ◌≤◌, ◌<◌, true, T, pos, nat_abs, length, get_or};
ghost use Rattle.std.specs.Float.Ieee.{of_bits};
ghost use Rattle.std.specs.Float.Ieee.Scale.{finite};
ghost use Rattle.kinds.specs.Limits.{doubles};
ghost use Rattle.lists.specs.Digits.{inside};
ghost use Rattle.words.specs.Words.{register_bits, words_of};
ghost use Rattle.addend.specs.Addend.{units_of};
ghost use Rattle.lanes.specs.Lanes.{lane_count, lane_bits, most_calls, lane_limit, digits_of, plus_lanes, lane_sum, settled_lanes};
ghost use Rattle.lanes.specs.Table.{Roomy};
ghost use Rattle.lanes.specs.SettleTable.{TwoAreas};
ghost use Rattle.lanes.specs.Three.{AtLane, put};

use crate::lane::{BASE, plus, with_sign};
use crate::{Lanes, carries, pairs};
use addend::place::scaled;

// The same as Lanes::BITS, of the shift's type.
const BITS: u64 = Lanes::BITS as u64;

#[derive(Drop)]
struct Triple {
    lane: usize,
    low: u64,
    middle: u64,
    high: u64,
}

// m * 2^e, by its digits: 53 binary digits shifted by at most 31 lie in three lanes.
fn shifted(m: u64, e: u64) -> Triple
    requires { (m < 2 ^ 53) × (e < 2046) }
    ensures { AtLane (m * 2 ^ e) result.lane result.low result.middle result.high }
{
    let s = (e % BITS) as u32;
    let above = m >> (Lanes::BITS - s);
    Triple {
        lane: (e / BITS) as usize,
        low: (m << s) % BASE,
        middle: above % BASE,
        high: above / BASE,
    }
}

// A digit into the lane k, which is there and far from the ends of 64 bits.
fn put(lanes: &mut [i64], k: usize, d: i64)
    requires { (k < length lanes.old) × (nat_abs (get_or lanes.old k (pos 0)) ≤ lane_limit most_calls) × (nat_abs d ≤ 2 ^ lane_bits) }
    ensures { lanes.new ≡ put lanes.old k d }
{
    lanes[k] = plus(lanes[k], d);
}

// A NaN or an infinity has no units; the lanes have to be there, and none beyond what the last call may leave.
pub fn add(lanes: &mut [i64], p: u64)
    requires { (length lanes.old ≡ lane_count) × Roomy most_calls lanes.old × T (finite (of_bits doubles.format p)) }
    ensures { lanes.new ≡ plus_lanes lanes.old (digits_of (units_of doubles p)) }
{
    let number = scaled::<f64>(p);
    let at = shifted(number.significand, number.by);
    let k = at.lane;
    put(lanes, k, with_sign(p, at.low));
    put(lanes, k + 1, with_sign(p, at.middle));
    put(lanes, k + 2, with_sign(p, at.high));
}

// Settles lanes whose whole number is in range, none beyond what the last call may leave, and writes the words. Both areas have their lengths.
pub fn settle(lanes: &mut [i64], words: &mut [u64])
    requires { TwoAreas lanes.old words.old × Roomy most_calls lanes.old × (inside register_bits (lane_sum lanes.old) ≡ true) }
    ensures { (lanes.new ≡ settled_lanes (lane_sum lanes.old)) × (words.new ≡ words_of (lane_sum lanes.old)) }
{
    carries::carry(lanes);
    pairs::write(lanes, words);
}
