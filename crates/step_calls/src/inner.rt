// The calls at either width, before their answer is a code.
ghost use Rattle.std.specs.Prelude.{◌≡◌, ◌≤◌, IfErr};
ghost use Rattle.kinds.specs.Limits.{doubles};
ghost use Rattle.kinds.specs.Refusals.{place};
ghost use Rattle.calls.specs.Inner.{code};
ghost use Rattle.arrays.specs.Arrays.{returned};
ghost use Rattle.step_calls.specs.StepArrays.{open_with, step_with};

use crate::numbers::{self, NUMBERS};
use arrays::lengths::too_many_or_4;
use arrays::patterns::Patterned;
use kinds::Refusal;

#[tactic(auto, unfolding(crate::specs::StepArrays::open_with))]
pub fn open<F: Patterned>(
    list: &[F::Pattern],
    work: &mut [F],
    state: &mut [u64],
    ensemble: u32,
) -> Result<(), Refusal>
    ensures told { IfErr result (λ refusal. place refusal ≤ doubles.length) }
    ensures returned { returned (code result) (F.values work.new) state.new
        ≡ open_with F.width ensemble (F.patterns list.now) (F.values work.old) state.old }
{
    if state.len() != NUMBERS {
        return Err(too_many_or_4::<F>(list));
    }
    let step = walk::open(list, work, ensemble)?;
    state.copy_from_slice(&numbers::told(step));
    Ok(())
}

// Numbers that are no state's are refused in the order of the walk's own refusals: 4; 21 where the eighth isn't the number named, as none above 32 bits is; else 8.
#[tactic(auto, unfolding(crate::specs::StepArrays::step_with))]
pub fn step<F: Patterned>(
    state: &mut [u64],
    work: &mut [F],
    block: usize,
    ensemble: u32,
) -> Result<(), Refusal>
    ensures told { IfErr result (λ refusal. place refusal ≤ doubles.length) }
    ensures returned { returned (code result) (F.values work.new) state.new
        ≡ step_with F.width state.old (F.values work.old) ensemble block }
{
    if state.len() != NUMBERS {
        return Err(Refusal::WrongLength);
    }
    let Some(s) = numbers::state::<F>(state) else {
        if work.len() != state[4] as usize {
            return Err(Refusal::WrongLength);
        }
        if u64::from(ensemble) != state[7] {
            return Err(Refusal::OtherEnsemble);
        }
        return Err(Refusal::UnsoundNumbers);
    };
    let step = walk::step(s, work, block, ensemble)?;
    state.copy_from_slice(&numbers::told(step));
    Ok(())
}
