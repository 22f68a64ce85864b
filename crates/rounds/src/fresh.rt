// How a round opens from mu alone: at an opening of the walk, and where the walk starts afresh.
ghost use Rattle.std.specs.Prelude.{◌≡◌, false, ◌≤◌};
ghost use Rattle.ieee.specs.Units.{negative, magnitude};
ghost use Rattle.kinds.specs.Answers.{as_given};
ghost use Rattle.judge.specs.Table.{size_of};
ghost use Rattle.rounds.specs.InUnits.{Small};
ghost use Rattle.rounds.specs.Round.{fresh};

use crate::round;
use kinds::{Floating, Step};

// Rules WO3 and W2: a round from mu, with t = +0. Where mu is zero the answer is `zero`, by rules WO2 and W1: its pattern is asked, as mu may be subnormal
// (rule F4). With a state goes what rule WS14 tells.
pub fn from_mu<F: Floating>(
    zero: F,
    n: usize,
    mu: F,
    rounds: u32,
    ensemble: u32,
    told: F,
) -> Step<F>
    requires { (n ≤ F.width.length) × Small F.width.format (size_of F.width F.width.magnitude) (F.value mu)
        × (negative (F.value mu) ≡ false) × (1 ≤ magnitude F.width.format (F.value mu) → 1 ≤ n) }
    ensures { as_given F.value result
        ≡ fresh F.width (F.value zero) n (magnitude F.width.format (F.value mu)) rounds ensemble (F.value told) }
{
    let nothing = F::word(mu.bits()) == 0;
    if nothing {
        return Step::Done(zero, rounds);
    }
    let sigma = round::sigma(n, mu);
    Step::More(round::begin(n, sigma, F::zero(), rounds, ensemble), told)
}
