// The close of a round: rules W1 to W4, in that order.
ghost use Rattle.std.specs.Prelude.{◌≡◌, true, false, ◌+◌, ◌≤◌, ◌<◌};
ghost use Rattle.std.specs.Float.Ieee.{prec};
ghost use Rattle.kinds.specs.Answers.{as_state, as_given};
ghost use Rattle.rounds.specs.Round.{scaled, closed};
ghost use Rattle.rounds.specs.Closable.{PowerFrom, Closable};
ghost use Rattle.rounds.specs.ClosedLaws.{enough, ends_of, Closes, ClosesWith};

use crate::fresh::from_mu;
use crate::round;
use kinds::{Floating, State, Step};

// 2^j eps sigma (rule F4). A sigma above the least normal number is a field over no digit, and the product of two powers of two is exact there: the field goes
// down by 53 - j, at binary32 by 24 - j, or one digit is left where there is no field.
fn scaled<F: Floating>(j: u32, sigma: F) -> F
    requires { (j ≤ prec F.width.format) × PowerFrom F.width.format (prec F.width.format) (F.value sigma) }
    ensures { F.value result ≡ scaled F.width.format j (F.value sigma) }
{
    let digits = F::DIGITS;
    let eps = digits + 1;
    let p = F::word(sigma.bits());
    let down = u64::from(eps - j) << digits;
    if down < p {
        return F::from_bits(F::from_word(p - down));
    }
    let field = (p / (1 << digits)) as u32;
    exponent::power(field + digits - 1 + j - eps)
}

// Rule W3's tests. The first is on patterns, which are in the order of their numbers where none is negative.
fn enough<F: Floating>(m: u32, sigma: F, tau1: F) -> bool
    requires { (m + m < prec F.width.format) × PowerFrom F.width.format 0 (F.value sigma) }
    ensures { result ≡ enough F.width.format m (F.value sigma) (F.value tau1) }
{
    let least = F::word(sigma.bits()) <= 1 << F::DIGITS;
    least || scaled(2 * m + 1, sigma) <= extract::absolute(tau1)
}

// Whether rule W3 ends the walk, after rules W1 and W2.
fn ends<F: Floating>(s: State<F>) -> bool
    requires { Closable F.width (as_state F.value s) }
    ensures { result ≡ ends_of F.width (as_state F.value s) }
{
    let tau1 = s.t + s.tau;
    tau1 != F::zero() && enough(kinds::exponent(s.n), s.sigma, tau1)
}

// The sum of rule W3, where T is handed in.
fn finish<F: Floating>(s: State<F>, sum: F) -> Step<F>
    requires { Closable F.width (as_state F.value s) × (ends_of F.width (as_state F.value s) ≡ true) }
    ensures { ClosesWith F.width (as_state F.value s) (F.value sum) (as_given F.value result) }
{
    let tau1 = s.t + s.tau;
    let tau2 = s.tau - (tau1 - s.t);
    Step::Done(tau1 + (tau2 + sum), s.rounds + 1)
}

// A round that rule W3 doesn't end: rules W1, W2 and W4.
fn onward<F: Floating>(s: State<F>) -> Step<F>
    requires { Closable F.width (as_state F.value s) × (ends_of F.width (as_state F.value s) ≡ false) }
    ensures { Closes F.width (as_state F.value s) (as_given F.value result) }
{
    let n = s.n;
    let rounds = s.rounds + 1;
    let tau1 = s.t + s.tau;
    if tau1 == F::zero() {
        // rules W1 and W2; rule E2 is to forget the second. The round has kept mu, so that the area isn't passed over again (rule WS13)
        return from_mu(F::zero(), n, s.largest, rounds, s.ensemble, s.largest);
    }
    s.sigma.held();
    let m = kinds::exponent(n);
    // rule W4
    Step::More(
        round::begin(n, scaled(m, s.sigma), tau1, rounds, s.ensemble),
        s.largest,
    )
}

// Rule WC1, for a state whose pending set is empty. T is added up only where rule W3 asks for it.
pub fn close<F: Floating>(s: State<F>, work: &[F]) -> Step<F>
    requires { Closable F.width (as_state F.value s) }
    ensures { as_given F.value result ≡ closed F.width (as_state F.value s) (F.values work.now) }
{
    if ends(s) {
        return finish(s, extract::last_sum(work));
    }
    onward(s)
}

// The same where T of the area has been added up.
pub fn close_with<F: Floating>(s: State<F>, sum: F) -> Step<F>
    requires { Closable F.width (as_state F.value s) }
    ensures { ClosesWith F.width (as_state F.value s) (F.value sum) (as_given F.value result) }
{
    if ends(s) {
        return finish(s, sum);
    }
    onward(s)
}
