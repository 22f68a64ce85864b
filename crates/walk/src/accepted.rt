// A block that the gate let pass.
ghost use Rattle.std.specs.Prelude.{◌≡◌, T};
ghost use Rattle.std.specs.Float.Ieee.{fits};
ghost use Rattle.lists.specs.Each.{Each};
ghost use Rattle.kinds.specs.Answers.{as_state, as_given};
ghost use Rattle.kinds.specs.Outcome.{outcome};
ghost use Rattle.kinds.specs.Verdict.{Good};
ghost use Rattle.sound.specs.Sound.{gated};
ghost use Rattle.walk.specs.Walk.{taken};

use kinds::{Floating, State, Step};
use rounds::close::close;
use rounds::round;

// That the width holds each number of an area: for proofs alone. A turn does nothing, so that the machine code has no loop.
fn held<F: Floating>(work: &[F])
    ensures { Each (λ x. T (fits F.width.format x)) (F.values work.now) }
{
    for x in work {
        x.held();
    }
}

// Takes the block; after the last pending one the round closes, and not before (rules WC1 and E3).
pub fn accepted<F: Floating>(s: State<F>, work: &mut [F], block: usize) -> Step<F>
    requires { gated F.width (as_state F.value s) s.ensemble block (F.values work.old) ≡ Good }
    ensures { outcome (as_given F.value result) (F.values work.new)
        ≡ taken F.width (as_state F.value s) block (F.values work.old) }
{
    s.sigma.held();
    s.largest.held();
    held(work);
    let next = round::take(s, work, block);
    let last = next.pending == 0;
    if last {
        return close(next, work);
    }
    Step::More(next, next.largest)
}
