// The sums of a list: nearest, and in parts.
#![tactic(auto)]

use crate::exact::Totals;
use kinds::{Doubles, Refusal};
use words::WORDS;

pub mod exact;
mod few;
mod lane;
mod long;
mod settle;
mod short;
mod split;

ghost use Rattle.std.specs.Prelude.{◌≡◌};
ghost use Rattle.kinds.specs.Limits.{doubles};
ghost use Rattle.kinds.specs.Answers.{as_nearest, as_parted};
ghost use Rattle.kinds.specs.Outcome.{outcome};
ghost use Rattle.sums.specs.Sums.{nearest_of, parts_of};

// Rule S2, with rule S3 where S is zero.
pub fn nearest<F: Totals>(list: &[F::Pattern]) -> Result<F, Refusal>
    ensures { as_nearest F.value result ≡ nearest_of F.width (F.patterns list.now) }
{
    judge::judge::<F>(list, true, true)?;
    let mut words = [0u64; WORDS];
    F::total(list, &mut words);
    let zero = judge::zero_sign::<F>(list);
    Ok(nearest::nearest_float(&words, zero))
}

// Rules S4 and S5.
pub fn parts(list: &[u64], area: &mut [f64]) -> Result<bool, Refusal>
    ensures { outcome (as_parted result) area.new ≡ parts_of doubles list.now area.old }
{
    let fits = (1..=Doubles::PARTS).contains(&area.len());
    judge::judge::<f64>(list, true, fits)?;
    let mut words = [0u64; WORDS];
    exact::total(list, &mut words);
    let zero = judge::zero_sign::<f64>(list);
    split::split(&mut words, area, zero);
    Ok(exact::is_zero(&words))
}
