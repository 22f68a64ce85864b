// How a walk opens.
ghost use Rattle.std.specs.Prelude.{◌≡◌, ◌≤◌, pos, length};
ghost use Rattle.ieee.specs.Units.{nearest_float};
ghost use Rattle.kinds.specs.Answers.{as_given};
ghost use Rattle.kinds.specs.Outcome.{outcome};
ghost use Rattle.kinds.specs.Verdict.{Good};
ghost use Rattle.judge.specs.Judge.{floats, first_fault};
ghost use Rattle.judge.specs.GreatestLaws.{greatest};
ghost use Rattle.walk.specs.Walk.{opened_after};
ghost use Rattle.walk.specs.OpeningLaws.{first_of};

use kinds::{Floating, Step};
use rounds::fresh::from_mu;

// The zero of a sign. `judge::zero_sign` is the one definition of which zero a list with exact sum zero answers, here and in the nearest sum (rule S3).
fn zero<F: Floating>(negative: bool) -> F
    ensures { F.value result ≡ nearest_float F.width.format negative (pos 0) }
{
    if negative { -F::zero() } else { F::zero() }
}

// The list as floats in the work area. Of an allowed list only, since `from_bits` asks for a pattern that is no NaN's, and to an area of the same length.
pub fn copy<F: Floating>(list: &[F::Pattern], work: &mut [F])
    requires { (length work.old ≡ length list.now) × (first_fault F.width (F.patterns list.now) 0 ≡ Good) }
    ensures { F.values work.new ≡ floats F.width (F.patterns list.now) }
{
    for (i, p) in list.iter().enumerate() {
        let x = F::from_bits(*p);
        work[i] = x;
    }
}

// Rules WO2 and WO3, of an allowed list: its greatest pattern is mu's, as patterns without their sign are in the order of their magnitudes; +0 of an empty
// list.
pub fn first<F: Floating>(list: &[F::Pattern], pattern: F::Pattern, ensemble: u32) -> Step<F>
    requires { (length list.now ≤ F.width.length) × (first_fault F.width (F.patterns list.now) 0 ≡ Good)
        × (F.pattern pattern ≡ greatest F.width (F.patterns list.now)) }
    ensures { as_given F.value result ≡ first_of F.width ensemble (F.patterns list.now) }
{
    let mu = F::from_bits(pattern);
    let zero = zero(judge::zero_sign::<F>(list));
    let told = F::zero();
    from_mu(zero, list.len(), mu, 0, ensemble, told)
}

// Rule WO1: the copy and the first round. Of an allowed list only, as either asks.
pub fn start<F: Floating>(
    list: &[F::Pattern],
    work: &mut [F],
    ensemble: u32,
    pattern: F::Pattern,
) -> Step<F>
    requires { (length work.old ≡ length list.now) × (length list.now ≤ F.width.length)
        × (first_fault F.width (F.patterns list.now) 0 ≡ Good)
        × (F.pattern pattern ≡ greatest F.width (F.patterns list.now)) }
    ensures { outcome (as_given F.value result) (F.values work.new)
        ≡ opened_after F.width ensemble Good (F.patterns list.now) (F.values work.old) }
{
    copy(list, work);
    first(list, pattern, ensemble)
}
