// The undivided walk of a list that was judged good. No state leaves it, so that any ensemble's number will do.
ghost use Rattle.std.specs.Prelude.{◌≡◌, true, suc, ◌-◌, eqb, length};
ghost use Rattle.extract.specs.Extract.{plus_zero};
ghost use Rattle.kinds.specs.Answers.{as_state};
ghost use Rattle.kinds.specs.Limits.{blocks_of};
ghost use Rattle.kinds.specs.Outcome.{outcome};
ghost use Rattle.kinds.specs.Step.{More};
ghost use Rattle.kinds.specs.Verdict.{Good};
ghost use Rattle.judge.specs.Judge.{floats, first_fault, judged};
ghost use Rattle.judge.specs.GreatestLaws.{greatest};
ghost use Rattle.rounds.specs.Fitting.{Fitting};
ghost use Rattle.walk.specs.Walk.{rounds_from, faithful_of};
ghost use Rattle.walk.specs.Run.{Running};
ghost use Rattle.walk.specs.Sums.{as_sum};

use crate::sum::Sum;
use crate::{opening, run};
use kinds::{Floating, State, Step};
use rounds::close::close_with;
use rounds::round;

// The first round reads the list and writes its remainders, so that the list isn't copied; what is left of the run is on the area.
fn from_list<F: Floating>(first: State<F>, list: &[F::Pattern], work: &mut [F]) -> Sum<F>
    requires { (length work.old ≡ length list.now) × (first_fault F.width (F.patterns list.now) 0 ≡ Good)
        × (fit : Fitting F.width) × Running F.width fit first.n (as_state F.value first) (floats F.width (F.patterns list.now)) }
    ensures { outcome (as_sum F.value result) (F.values work.new)
        ≡ rounds_from F.width (blocks_of F.width first.n) (suc F.width.rounds - first.rounds)
        (outcome (More (as_state F.value first) (plus_zero F.width.format)) (floats F.width (F.patterns list.now))) }
{
    let taken = round::take_list(first, list, work);
    match close_with(taken.state, taken.sum) {
        Step::More(next, _) => run::run(next, work),
        Step::Done(sum, rounds) => Sum { sum, rounds },
    }
}

// Rule WR1. A list of zeros has no round, and is copied.
pub fn undivided<F: Floating>(list: &[F::Pattern], work: &mut [F], pattern: F::Pattern) -> Sum<F>
    requires { (judged F.width (eqb (length work.old) (length list.now)) true (F.patterns list.now) ≡ Good)
        × (F.pattern pattern ≡ greatest F.width (F.patterns list.now)) }
    ensures { outcome (as_sum F.value result) (F.values work.new)
        ≡ faithful_of F.width (F.patterns list.now) (F.values work.old) }
{
    match opening::first(list, pattern, 0) {
        Step::More(state, _) => from_list(state, list, work),
        Step::Done(sum, rounds) => {
            opening::copy(list, work);
            Sum { sum, rounds }
        }
    }
}
