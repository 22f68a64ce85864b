// Sound states, and the gate of a block step.
#![tactic(auto)]

use crate::numbers::{numbers, pending};
use crate::places::{bad_place, limit};
use kinds::{Floating, Refusal, State};

pub mod numbers;
pub mod places;

ghost use Rattle.std.specs.Prelude.{◌≡◌};
ghost use Rattle.kinds.specs.Answers.{as_verdict, as_state};
ghost use Rattle.sound.specs.Sound.{gated};

// Rule O2. The whole work area is looked at, blocks already taken too; the block number is compared with B before any shift.
pub fn gate<F: Floating>(
    s: State<F>,
    work: &[F],
    block: usize,
    ensemble: u32,
) -> Result<(), Refusal>
    ensures { as_verdict result ≡ gated F.width (as_state F.value s) ensemble block (F.values work.now) }
{
    if work.len() != s.n {
        return Err(Refusal::WrongLength);
    }
    if ensemble != s.ensemble {
        return Err(Refusal::OtherEnsemble);
    }
    if !numbers(s) {
        return Err(Refusal::UnsoundNumbers);
    }
    if !pending(s) {
        return Err(Refusal::UnsoundSet);
    }
    if let Some(place) = bad_place(work, limit(s)) {
        return Err(Refusal::UnsoundWork(place as u32));
    }
    if kinds::blocks(s.n) <= block {
        return Err(Refusal::NoSuchBlock);
    }
    if !bitset::has(s.pending, block) {
        return Err(Refusal::BlockNotPending);
    }
    Ok(())
}
