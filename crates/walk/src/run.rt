// The undivided run: rounds with their blocks in rising order, over a core that doesn't look at soundness again.
ghost use Rattle.std.specs.Prelude.{◌≡◌, suc, ◌-◌};
ghost use Rattle.extract.specs.Extract.{plus_zero};
ghost use Rattle.kinds.specs.Answers.{as_state};
ghost use Rattle.kinds.specs.Limits.{blocks_of};
ghost use Rattle.kinds.specs.Outcome.{outcome};
ghost use Rattle.kinds.specs.Step.{More};
ghost use Rattle.rounds.specs.Fitting.{Fitting};
ghost use Rattle.walk.specs.Walk.{rounds_from};
ghost use Rattle.walk.specs.Run.{Running};
ghost use Rattle.walk.specs.Sums.{as_sum};

use crate::sum::Sum;
use kinds::{Floating, State, Step};
use rounds::close::close;
use rounds::round;

// Rounds from a state that opens one of a run, until the walk ends. It ends since each round lowers sigma: no budget of rounds is in the code.
pub fn run<F: Floating>(first: State<F>, work: &mut [F]) -> Sum<F>
    requires { (fit : Fitting F.width) × Running F.width fit first.n (as_state F.value first) (F.values work.old) }
    ensures { outcome (as_sum F.value result) (F.values work.new)
        ≡ rounds_from F.width (blocks_of F.width first.n) (suc F.width.rounds - first.rounds)
        (outcome (More (as_state F.value first) (plus_zero F.width.format)) (F.values work.old)) }
{
    let mut s = first;
    loop {
        let taken = round::take_all(s, work);
        match close(taken, work) {
            Step::More(next, _) => {
                s = next;
            }
            Step::Done(sum, rounds) => return Sum { sum, rounds },
        }
    }
}
