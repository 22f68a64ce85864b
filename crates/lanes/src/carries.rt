// What lanes hand on from the lowest up when they are settled: first looked at, then done.
ghost use Rattle.std.specs.Prelude.{◌≡◌, [], ◌∷◌, ◌++◌, map, pos, length, take};
ghost use Rattle.lanes.specs.Lanes.{lane_count, low_lanes, most_calls};
ghost use Rattle.lanes.specs.Table.{Roomy};
ghost use Rattle.lanes.specs.Settle.{lane_digits, top_lane};

use crate::{Lanes, lane};

// The place of the top lane.
const TOP: usize = Lanes::LENGTH - 1;

// What the top lane would hold. Nothing is written, so that rule R9 is known before the first write.
pub fn top(lanes: &[i64]) -> i64
    requires { (length lanes.now ≡ lane_count) × Roomy most_calls lanes.now }
    ensures { result ≡ top_lane lanes.now }
{
    let mut carry = 0;
    for i in 0..TOP {
        carry = lane::handed_on(lane::plus(lanes[i], carry));
    }
    lane::plus(lanes[TOP], carry)
}

// Leaves each lane its digit, and the top one what is carried into it. What is required is as above.
pub fn carry(lanes: &mut [i64])
    requires { (length lanes.old ≡ lane_count) × Roomy most_calls lanes.old }
    ensures { lanes.new ≡ map pos (lane_digits (pos 0) (take low_lanes lanes.old)) ++ (top_lane lanes.old ∷ []) }
{
    let mut carry = 0;
    for i in 0..TOP {
        let sum = lane::plus(lanes[i], carry);
        lanes[i] = lane::rest(sum);
        carry = lane::handed_on(sum);
    }
    lanes[TOP] = lane::plus(lanes[TOP], carry);
}
