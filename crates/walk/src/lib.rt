// The faithful walk at either width: the opening of a list, block steps, and the undivided call.
#![tactic(auto)]

pub use crate::sum::Sum;
use kinds::{Floating, Refusal, State, Step};

mod accepted;
mod opening;
mod run;
mod sum;
mod undivided;

ghost use Rattle.std.specs.Prelude.{◌≡◌};
ghost use Rattle.kinds.specs.Answers.{as_state, as_step};
ghost use Rattle.kinds.specs.Outcome.{outcome};
ghost use Rattle.walk.specs.Sums.{as_faithful};
ghost use Rattle.walk.specs.Walk.{opened, stepped, faithful_of};

// Rule WO1; rule O1 has its refusals.
pub fn open<F: Floating>(
    list: &[F::Pattern],
    work: &mut [F],
    ensemble: u32,
) -> Result<Step<F>, Refusal>
    ensures { outcome (as_step F.value result) (F.values work.new)
        ≡ opened F.width ensemble (F.patterns list.now) (F.values work.old) }
{
    let fits = work.len() == list.len();
    let greatest = judge::measure::<F>(list, fits, true)?;
    Ok(opening::start(list, work, ensemble, greatest))
}

// Rules O2 and WS9: the gate, and then the block.
pub fn step<F: Floating>(
    s: State<F>,
    work: &mut [F],
    block: usize,
    ensemble: u32,
) -> Result<Step<F>, Refusal>
    ensures { outcome (as_step F.value result) (F.values work.new)
        ≡ stepped F.width (as_state F.value s) ensemble block (F.values work.old) }
{
    sound::gate(s, work, block, ensemble)?;
    Ok(accepted::accepted(s, work, block))
}

// Rule WR1; rule O1 has its refusals, and a refused list is written nowhere.
pub fn faithful<F: Floating>(list: &[F::Pattern], work: &mut [F]) -> Result<Sum<F>, Refusal>
    ensures { outcome (as_faithful F.value result) (F.values work.new)
        ≡ faithful_of F.width (F.patterns list.now) (F.values work.old) }
{
    let greatest = judge::measure::<F>(list, work.len() == list.len(), true)?;
    Ok(undivided::undivided(list, work, greatest))
}
