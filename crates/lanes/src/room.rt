// Whether lanes have room for what so many calls may have left in them: rule N4.
ghost use Rattle.std.specs.Prelude.{◌≡◌, ◌^◌, ◌<◌, leb, nat_abs};
ghost use Rattle.lists.specs.Every.{every};
ghost use Rattle.lanes.specs.Lanes.{roomy};

use crate::Lanes;
use crate::lane::within;

// The loop isn't left early, so that several lanes are looked at together.
pub fn all_within(lanes: &[i64], limit: u64) -> bool
    requires { limit < 2 ^ 63 }
    ensures { result ≡ every (λ z. leb (nat_abs z) limit) lanes.now }
{
    let mut good = true;
    for lane in lanes {
        good &= within(*lane, limit);
    }
    good
}

// Rule R25, of lanes whose length the caller has looked at or will.
#[tactic(auto, unfolding(crate::specs::Lanes::roomy))]
pub fn roomy(lanes: &[i64], count: u64) -> bool
    ensures { result ≡ roomy count lanes.now }
{
    count <= Lanes::CALLS && all_within(lanes, Lanes::after(count).limit())
}
