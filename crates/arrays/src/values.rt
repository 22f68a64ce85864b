// Values to a lent array of numbers.
ghost use Rattle.std.specs.Prelude.{◌≡◌, ◌≤◌, IfErr, length};
ghost use Rattle.kinds.specs.Limits.{doubles};
ghost use Rattle.kinds.specs.Refusals.{place};
ghost use Rattle.kinds.specs.Answers.{as_nearest};
ghost use Rattle.kinds.specs.Heard.{nearest_heard};
ghost use Rattle.kinds.specs.Outcome.{outcome};
ghost use Rattle.calls.specs.Inner.{code};
ghost use Rattle.arrays.specs.Arrays.{code_of, values_of};
ghost use Rattle.arrays.specs.Inner.{NearestRefusal};

use crate::patterns::Patterned;
use kinds::Refusal;

// A nearest sum's pattern is the one value; a refusal leaves it.
pub fn nearest<F: Patterned>(answer: Result<F, Refusal>, out: &mut [u64]) -> Result<(), Refusal>
    requires { (length out.old ≡ 1) × NearestRefusal (as_nearest F.value answer) }
    ensures told { IfErr result (λ refusal. place refusal ≤ doubles.length) }
    ensures written { let heard = nearest_heard F.width (as_nearest F.value answer) in outcome (code result) out.new ≡ outcome (code_of heard) (values_of heard out.old) }
{
    out.copy_from_slice(&[answer?.pattern()]);
    Ok(())
}
