// A register that carries later, for C: an addition, a withdrawal, and a settling.
#![tactic(auto)]

ghost use Rattle.std.specs.Prelude.{◌≡◌, ◌≤◌, IfErr, length};
ghost use Rattle.kinds.specs.Limits.{doubles};
ghost use Rattle.kinds.specs.Outcome.{outcome};
ghost use Rattle.kinds.specs.Refusals.{place};
ghost use Rattle.calls.specs.Inner.{code};
ghost use Rattle.lanes.specs.Laid.{as_laid};
ghost use Rattle.lanes.specs.Lanes.{laid_heard};
ghost use Rattle.arrays.specs.Arrays.{code_of, values_of, returned};
ghost use Rattle.lane_calls.specs.LaneArrays.{LaidRefusal, add_lanes, withdraw_lanes, settle_returned, settle_lanes};

use calls::{code, refusal};
use kinds::Refusal;

// Rule C10: the count is the one value.
const VALUES: usize = 1;

// Writes the count; a refusal leaves the value.
fn answer(laid: Result<u64, Refusal>, out: &mut [u64]) -> Result<(), Refusal>
    requires { (length out.old ≡ 1) × LaidRefusal (as_laid laid) }
    ensures told { IfErr result (λ refusal. place refusal ≤ doubles.length) }
    ensures written { let heard = laid_heard (as_laid laid) in outcome (code result) out.new ≡ outcome (code_of heard) (values_of heard out.old) }
{
    out.copy_from_slice(&[laid?]);
    Ok(())
}

// Adds one number, as `lanes::add` does: the next count.
#[unsafe(no_mangle)]
pub extern "C" fn kewohiata_lanes_add(
    lanes: &mut [i64],
    count: u64,
    pattern: u64,
    out: &mut [u64],
) -> u32
    ensures { returned result lanes.new out.new ≡ add_lanes lanes.old count pattern out.old }
{
    if out.len() != VALUES {
        return refusal(Refusal::WrongLength);
    }
    code(answer(lanes::add(lanes, count, pattern), out))
}

// Takes one number out, as `lanes::withdraw` does: the next count.
#[unsafe(no_mangle)]
pub extern "C" fn kewohiata_lanes_withdraw(
    lanes: &mut [i64],
    count: u64,
    pattern: u64,
    out: &mut [u64],
) -> u32
    ensures { returned result lanes.new out.new ≡ withdraw_lanes lanes.old count pattern out.old }
{
    if out.len() != VALUES {
        return refusal(Refusal::WrongLength);
    }
    code(answer(lanes::withdraw(lanes, count, pattern), out))
}

// Settles the lanes and writes their words, as `lanes::settle` does: the count that starts afresh.
#[unsafe(no_mangle)]
pub extern "C" fn kewohiata_lanes_settle(
    lanes: &mut [i64],
    count: u64,
    words: &mut [u64],
    out: &mut [u64],
) -> u32
    ensures { settle_returned result lanes.new words.new out.new
        ≡ settle_lanes lanes.old count words.old out.old }
{
    if out.len() != VALUES {
        return refusal(Refusal::WrongLength);
    }
    code(answer(lanes::settle(lanes, count, words), out))
}
