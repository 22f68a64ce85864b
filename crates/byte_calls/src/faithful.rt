// The faithful sum of a list in bytes. The numbers and the work area stand on the stack, in areas of three lengths, since clearing the longest costs more than
// summing a short list.
ghost use Rattle.std.specs.Prelude.{◌≡◌, [], ◌*◌, ◌≤◌, IfErr, length};
ghost use Rattle.kinds.specs.Limits.{doubles};
ghost use Rattle.kinds.specs.Outcome.{outcome};
ghost use Rattle.kinds.specs.Refusals.{place};
ghost use Rattle.kinds.specs.Heard.{step_heard};
ghost use Rattle.walk.specs.Walk.{faithful_of};
ghost use Rattle.calls.specs.Calls.{sum_bytes, answered, summed, own, faithful_heard, faithful_call};
ghost use Rattle.calls.specs.Inner.{Listed, code};

use kinds::{Doubles, Refusal};
use octets::little::SIZE;

// Of numbers: what is answered goes to the 16 bytes.
#[tactic(auto, unfolding(calls::specs::Calls::answered))]
fn answer(numbers: &[u64], work: &mut [f64], out: &mut [u8]) -> Result<(), Refusal>
    requires { length out.old ≡ sum_bytes }
    ensures told { IfErr result (λ refusal. place refusal ≤ doubles.length) }
    ensures written { outcome (code result) out.new ≡ answered (step_heard doubles (faithful_of doubles numbers.now work.old).answer) out.old [] }
{
    let walked = walk::faithful(numbers, work)?;
    calls::answer(f64::to_bits(walked.sum), u64::from(walked.rounds), out);
    Ok(())
}

// In areas of the list's own length.
fn within(list: &[u8], numbers: &mut [u64], work: &mut [f64], out: &mut [u8]) -> Result<(), Refusal>
    requires { (length list.now ≡ 8 * length numbers.old) × (work.old ≡ own (length numbers.old)) × (length out.old ≡ sum_bytes) }
    ensures told { IfErr result (λ refusal. place refusal ≤ doubles.length) }
    ensures written { outcome (code result) out.new ≡ summed faithful_heard list.now out.old }
{
    octets::little::unpack(list, numbers);
    answer(numbers, work, out)
}

// In areas of N places, which hold the list.
fn sum<const N: usize>(list: &[u8], out: &mut [u8]) -> Result<(), Refusal>
    requires { Listed N (length list.now) × (N ≤ doubles.length) × (length out.old ≡ sum_bytes) }
    ensures told { IfErr result (λ refusal. place refusal ≤ doubles.length) }
    ensures written { outcome (code result) out.new ≡ summed faithful_heard list.now out.old }
{
    let n = list.len() / SIZE;
    let mut numbers = [0u64; N];
    let mut work = [0f64; N];
    within(list, &mut numbers[..n], &mut work[..n], out)
}

// In the shortest of three areas that hold the list: rule C7. Both sums choose by themselves: a trait of a sum in areas of N places, with a bound for each
// length, would be longer than the choice.
#[tactic(auto, unfolding(calls::specs::Calls::sum_call))]
pub fn called(list: &[u8], out: &mut [u8]) -> Result<(), Refusal>
    ensures told { IfErr result (λ refusal. place refusal ≤ doubles.length) }
    ensures written { outcome (code result) out.new ≡ faithful_call list.now out.old }
{
    calls::lengths(list, out)?;
    let n = list.len() / SIZE;
    if n <= 64 {
        return sum::<64>(list, out);
    }
    if n <= 512 {
        return sum::<512>(list, out);
    }
    sum::<{ Doubles::LENGTH }>(list, out)
}
