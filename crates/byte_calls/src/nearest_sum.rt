// The nearest sum of a list in bytes, with the numbers on the stack as in the faithful sum.
ghost use Rattle.std.specs.Prelude.{◌≡◌, [], ◌*◌, ◌≤◌, IfErr, length};
ghost use Rattle.kinds.specs.Limits.{doubles};
ghost use Rattle.kinds.specs.Outcome.{outcome};
ghost use Rattle.kinds.specs.Refusals.{place};
ghost use Rattle.calls.specs.Calls.{sum_bytes, answered, summed, sum_heard, nearest_call};
ghost use Rattle.calls.specs.Inner.{Listed, code};

use kinds::{Doubles, Refusal};
use octets::little::SIZE;

// Of numbers: what is answered goes to the 16 bytes.
#[tactic(auto, unfolding(calls::specs::Calls::answered))]
fn answer(numbers: &[u64], out: &mut [u8]) -> Result<(), Refusal>
    requires { length out.old ≡ sum_bytes }
    ensures told { IfErr result (λ refusal. place refusal ≤ doubles.length) }
    ensures written { outcome (code result) out.new ≡ answered (sum_heard numbers.now) out.old [] }
{
    let sum = sums::nearest::<f64>(numbers)?;
    calls::answer(f64::to_bits(sum), 0, out);
    Ok(())
}

// In an area of the list's own length.
fn within(list: &[u8], numbers: &mut [u64], out: &mut [u8]) -> Result<(), Refusal>
    requires { (length list.now ≡ 8 * length numbers.old) × (length out.old ≡ sum_bytes) }
    ensures told { IfErr result (λ refusal. place refusal ≤ doubles.length) }
    ensures written { outcome (code result) out.new ≡ summed sum_heard list.now out.old }
{
    octets::little::unpack(list, numbers);
    answer(numbers, out)
}

// In an area of N places, which hold the list.
fn sum<const N: usize>(list: &[u8], out: &mut [u8]) -> Result<(), Refusal>
    requires { Listed N (length list.now) × (N ≤ doubles.length) × (length out.old ≡ sum_bytes) }
    ensures told { IfErr result (λ refusal. place refusal ≤ doubles.length) }
    ensures written { outcome (code result) out.new ≡ summed sum_heard list.now out.old }
{
    let n = list.len() / SIZE;
    let mut numbers = [0u64; N];
    within(list, &mut numbers[..n], out)
}

// In the shortest of three areas that hold the list.
#[tactic(auto, unfolding(calls::specs::Calls::sum_call))]
pub fn called(list: &[u8], out: &mut [u8]) -> Result<(), Refusal>
    ensures told { IfErr result (λ refusal. place refusal ≤ doubles.length) }
    ensures written { outcome (code result) out.new ≡ nearest_call list.now out.old }
{
    calls::lengths(list, out)?;
    let n = list.len() / SIZE;
    if n <= 64 {
        return sum::<64>(list, out);
    }
    if n <= 512 {
        return sum::<512>(list, out);
    }
    sum::<{ Doubles::LENGTH }>(list, out)
}
