// Two registers, and the one that holds their sum.
ghost use Rattle.std.specs.Prelude.{◌≡◌, ◌+ℤ◌};
ghost use Rattle.kinds.specs.Answers.{as_entry};
ghost use Rattle.kinds.specs.Outcome.{outcome};
ghost use Rattle.words.specs.Words.{whole_of, words_of};
ghost use Rattle.register.specs.Merge.{merged, ThreeRegisters};

use crate::range;
use kinds::Refusal;
use words::{WORDS, columns};

// Writes a + b; what leaves 2112 bits is cut off. All three have a register's words.
pub fn total(a: &[u64], b: &[u64], out: &mut [u64])
    requires { ThreeRegisters a.now b.now out.old }
    ensures { out.new ≡ words_of (whole_of a.now +ℤ whole_of b.now) }
{
    columns::add(a, b, out);
}

// Rules G7 and R9, of registers whose lengths the caller has looked at. The sum is made on the stack first, so that nothing is written before it is known to
// fit, and then once more, where it stays.
#[tactic(auto, using(crate::proofs::ThreeBits::merged_crossed, crate::proofs::ThreeBits::merged_fits))]
pub fn merged(a: &[u64], b: &[u64], out: &mut [u64]) -> Result<(), Refusal>
    requires { ThreeRegisters a.now b.now out.old }
    ensures { outcome (as_entry result) out.new ≡ merged a.now b.now out.old }
{
    let mut sum = [0u64; WORDS];
    total(a, b, &mut sum);
    if range::crossed(range::sign(a), range::sign(b), range::sign(&sum)) {
        return Err(Refusal::RegisterFull);
    }
    total(a, b, out);
    Ok(())
}
