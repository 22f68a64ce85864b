// The calls at either width, before their answer is a code.
ghost use Rattle.std.specs.Prelude.{◌≡◌, ◌≤◌, IfErr};
ghost use Rattle.kinds.specs.Limits.{doubles};
ghost use Rattle.kinds.specs.Outcome.{outcome};
ghost use Rattle.kinds.specs.Refusals.{place};
ghost use Rattle.calls.specs.Inner.{code};
ghost use Rattle.arrays.specs.Arrays.{returned};
ghost use Rattle.sum_calls.specs.SumArrays.{faithful_with, nearest_with};

use arrays::lengths::too_many_or_4;
use arrays::patterns::Patterned;
use arrays::values;
use kinds::Refusal;
use sums::exact::Totals;

#[tactic(auto, unfolding(crate::specs::SumArrays::faithful_with))]
pub fn faithful<F: Patterned>(
    list: &[F::Pattern],
    work: &mut [F],
    out: &mut [u64],
) -> Result<(), Refusal>
    ensures told { IfErr result (λ refusal. place refusal ≤ doubles.length) }
    ensures returned { returned (code result) (F.values work.new) out.new
        ≡ faithful_with F.width (F.patterns list.now) (F.values work.old) out.old }
{
    if out.len() != 2 {
        return Err(too_many_or_4::<F>(list));
    }
    let walked = walk::faithful(list, work)?;
    out.copy_from_slice(&[walked.sum.pattern(), u64::from(walked.rounds)]);
    Ok(())
}

#[tactic(auto, unfolding(crate::specs::SumArrays::nearest_with))]
pub fn nearest<F: Patterned + Totals>(list: &[F::Pattern], out: &mut [u64]) -> Result<(), Refusal>
    ensures told { IfErr result (λ refusal. place refusal ≤ doubles.length) }
    ensures returned { outcome (code result) out.new ≡ nearest_with F.width (F.patterns list.now) out.old }
{
    if out.len() != 1 {
        return Err(too_many_or_4::<F>(list));
    }
    values::nearest::<F>(sums::nearest::<F>(list), out)
}
