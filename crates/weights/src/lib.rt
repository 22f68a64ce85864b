// Handing on the weight of a clock that leaves the ensemble, to the last grain.
#![tactic(auto)]

use crate::grains::{GRAINS, grains_of, is_weight};
use crate::share::{shares, write};
use kinds::Refusal;

mod grains;
mod share;

ghost use Rattle.std.specs.Prelude.{◌≡◌, true, ◌≤◌, length, if◌then◌else◌, ltb, Some, None};
ghost use Rattle.kinds.specs.Limits.{doubles};
ghost use Rattle.kinds.specs.Answers.{as_verdict};
ghost use Rattle.kinds.specs.Outcome.{outcome};
ghost use Rattle.judge.specs.Judge.{judged};
ghost use Rattle.weights.specs.Weights.{total, weights_of, bad_weight, weighed, and_then, handed_of};
ghost use Rattle.weights.specs.Answers.{as_handed};
ghost use Rattle.weights.specs.Table.{Weighed};

// The place of the first pattern that is no weight.
fn bad_weight(list: &[u64]) -> Option<usize>
    ensures { result ≡ (if ltb (bad_weight doubles list.now) (length list.now) then Some (bad_weight doubles list.now) else None) }
{
    list.iter().position(|p| !is_weight(*p))
}

// Rule V2: the sum in grains, of not more weights than a list has.
fn total(list: &[u64]) -> u64
    requires { (length list.now ≤ doubles.length) × Weighed doubles list.now (length list.now) }
    ensures { result ≡ total (weights_of doubles list.now) }
{
    let mut sum = 0;
    for &p in list {
        sum += grains_of(p);
    }
    sum
}

// Rule O7 from 14 on. Where the total is 1, all others are zero exactly where the leaver has all of it.
fn weighed(list: &[u64], leaver: usize) -> Result<(), Refusal>
    requires { length list.now ≤ doubles.length }
    ensures { as_verdict result ≡ weighed doubles list.now leaver }
{
    if let Some(place) = bad_weight(list) {
        return Err(Refusal::NotAWeight(place as u32));
    }
    let whole = total(list) == GRAINS;
    if !whole {
        return Err(Refusal::WrongTotal);
    }
    if list.len() <= leaver {
        return Err(Refusal::NoSuchClock);
    }
    let all = grains_of(list[leaver]) == GRAINS;
    if all {
        return Err(Refusal::NoOtherWeight);
    }
    Ok(())
}

// Rule O7, where area says whether the lent area has the list's length.
fn judged(list: &[u64], leaver: usize, area: bool) -> Result<(), Refusal>
    ensures { as_verdict result ≡ and_then (judged doubles area true list.now) (weighed doubles list.now leaver) }
{
    judge::judge::<f64>(list, area, true)?;
    weighed(list, leaver)
}

// Rule V6: the weight of the clock at the leaver's place goes to the others, and the new list to the area.
pub fn hand_on(list: &[u64], leaver: usize, out: &mut [u64]) -> Result<(), Refusal>
    ensures { outcome (as_handed result) out.new ≡ handed_of doubles list.now leaver out.old }
{
    let fits = out.len() == list.len();
    judged(list, leaver, fits)?;
    let w = grains_of(list[leaver]);
    write(list, leaver, w, w - shares(list, leaver, w), out);
    Ok(())
}
