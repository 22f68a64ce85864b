// The ten numbers that a walk stands in, at either width.
ghost use Rattle.std.specs.Prelude.{◌≡◌, true, false, [], MatchOption, length};
ghost use Rattle.kinds.specs.Answers.{as_given, as_state};
ghost use Rattle.kinds.specs.Heard.{step_heard};
ghost use Rattle.step_calls.specs.StepArrays.{walk_numbers, walk_values, float_at, state_in};
ghost use Rattle.step_calls.specs.Inner.{number, readable};

use arrays::patterns::Patterned;
use kinds::{Floating, State, Step};

// The numbers of a walk.
pub const NUMBERS: usize = 10;

// A state and the largest remainder that is told with it, or a sum and its rounds.
pub fn told<F: Patterned>(step: Step<F>) -> [u64; NUMBERS]
    ensures { result ≡ walk_values (step_heard F.width (as_given F.value step)) [] }
{
    match step {
        Step::More(s, told) => [
            1,
            s.sigma.pattern(),
            s.t.pattern(),
            s.tau.pattern(),
            s.n as u64,
            s.pending,
            u64::from(s.rounds),
            u64::from(s.ensemble),
            s.largest.pattern(),
            told.pattern(),
        ],
        Step::Done(sum, rounds) => [2, sum.pattern(), u64::from(rounds), 0, 0, 0, 0, 0, 0, 0],
    }
}

// The float of a pattern, but of no NaN's: of that the language makes no float.
fn float<F: Floating>(p: u64) -> Option<F>
    ensures { MatchOption result (number F.width.format p ≡ false) (λ x. (number F.width.format p ≡ true) × (F.value x ≡ float_at F.width.format p)) }
{
    if F::SIGN <= p / 2 {
        return None;
    }
    if F::INFINITY < p % F::SIGN {
        return None;
    }
    Some(F::from_bits(F::from_word(p)))
}

// The state that the numbers are, where they fit its fields. No sound state has others.
pub fn state<F: Floating>(numbers: &[u64]) -> Option<State<F>>
    requires { length numbers.now ≡ walk_numbers }
    ensures { MatchOption result (readable F.width.format numbers.now ≡ false) (λ s. (readable F.width.format numbers.now ≡ true) × (as_state F.value s ≡ state_in F.width numbers.now)) }
{
    let &[_, sigma, t, tau, n, pending, rounds, ensemble, largest, _] = numbers else {
        unreachable!()
    };
    Some(State {
        sigma: float(sigma)?,
        t: float(t)?,
        tau: float(tau)?,
        n: n as usize,
        pending,
        rounds: u32::try_from(rounds).ok()?,
        ensemble: u32::try_from(ensemble).ok()?,
        largest: float(largest)?,
    })
}
