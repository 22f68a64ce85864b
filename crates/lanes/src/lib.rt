// A register that carries later: 66 lent lanes, each a signed number of 64 bits that stands for 32 bits of the unit count.
#![tactic(auto)]

use kinds::Refusal;
use words::WORDS;

mod carries;
pub mod inner;
mod lane;
mod pairs;
mod room;

ghost use Rattle.std.specs.Prelude.{◌≡◌, ◌≤◌};
ghost use Rattle.kinds.specs.Outcome.{outcome};
ghost use Rattle.lanes.specs.Lanes.{most_calls, lane_limit, lane_added, lane_withdrawn, settling, settled};
ghost use Rattle.lanes.specs.Laid.{as_laid};
ghost use Rattle.lanes.specs.Limits.{LanesTied};

// Lanes, by the additions and withdrawals that they have taken since they were settled. Their limits are constants of this type.
#[derive(Drop)]
pub struct Lanes {
    pub calls: u64,
}

// The same limits as values.
#[derive(Drop)]
pub struct LaneLimits {
    pub length: usize,
    pub bits: u32,
    pub calls: u64,
}

impl Lanes {
    // rule N1
    pub const LENGTH: usize = 66;

    pub const BITS: u32 = 32;

    // rule N2
    pub const CALLS: u64 = 1 << 30;

    // Ties the constants to the definitions: where one of either moves, this is refused.
    pub fn limits() -> LaneLimits
        ensures { LanesTied result }
    {
        LaneLimits {
            length: Self::LENGTH,
            bits: Self::BITS,
            calls: Self::CALLS,
        }
    }

    pub fn after(calls: u64) -> Self
        ensures { result.calls ≡ calls }
    {
        Lanes { calls }
    }

    // rule N4: what a lane's magnitude may be
    pub fn limit(self) -> u64
        requires { self.calls ≤ most_calls }
        ensures { result ≡ lane_limit self.calls }
    {
        (self.calls + 1) << Self::BITS
    }
}

// Adds one allowed number to lanes that have taken so many calls: rules N3 and O13. It gives how many they have taken then.
#[tactic(auto, unfolding(crate::specs::Lanes::lay), using(crate::proofs::Laying::adding))]
pub fn add(lanes: &mut [i64], count: u64, p: u64) -> Result<u64, Refusal>
    ensures { outcome (as_laid result) lanes.new ≡ lane_added lanes.old count p }
{
    if lanes.len() != Lanes::LENGTH {
        return Err(Refusal::WrongLength);
    }
    if !room::roomy(lanes, count) {
        return Err(Refusal::NoRoom);
    }
    if let Some(fault) = judge::fault::<f64>(p) {
        return Err(fault.at(0));
    }
    if count == Lanes::CALLS {
        return Err(Refusal::TooManyCalls);
    }
    inner::add(lanes, p);
    Ok(count + 1)
}

// Takes one allowed number out, with the same refusals: it adds the opposite number.
pub fn withdraw(lanes: &mut [i64], count: u64, p: u64) -> Result<u64, Refusal>
    ensures { outcome (as_laid result) lanes.new ≡ lane_withdrawn lanes.old count p }
{
    add(lanes, count, addend::opposite(p))
}

// Settles lanes that have taken so many calls, and writes their words: rules N5 and O14. The count starts afresh.
#[tactic(auto, unfolding(crate::specs::Lanes::settled), using(crate::proofs::Laying::settling))]
pub fn settle(lanes: &mut [i64], count: u64, words: &mut [u64]) -> Result<u64, Refusal>
    ensures { settling (as_laid result) lanes.new words.new ≡ settled lanes.old count words.old }
{
    if lanes.len() != Lanes::LENGTH || words.len() != WORDS {
        return Err(Refusal::WrongLength);
    }
    if !room::roomy(lanes, count) {
        return Err(Refusal::NoRoom);
    }
    if !lane::fits(carries::top(lanes)) {
        return Err(Refusal::RegisterFull);
    }
    inner::settle(lanes, words);
    Ok(0)
}
