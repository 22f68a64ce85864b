// What pairs are refused for, by their patterns alone.
ghost use Rattle.std.specs.Prelude.{◌≡◌, not, ◌*◌, ◌≤◌, ◌<◌, length};
ghost use mathlib.Core.List.{zip};
ghost use Rattle.std.specs.Float.Ieee.{ones, hid};
ghost use Rattle.kinds.specs.Answers.{as_verdict};
ghost use Rattle.kinds.specs.Limits.{doubles};
ghost use Rattle.judge.specs.Judge.{first_bad};
ghost use Rattle.pairs.specs.Limits.{double_pairs};
ghost use Rattle.pairs.specs.Answers.{verdict_at};
ghost use Rattle.pairs.specs.Pairs.{in_range, pair_fault, pairs_judged};

use crate::Pairs;
use kinds::{INFINITY, Refusal, SIGN};

// Whether a number is against rule M2, by its pattern without the sign.
fn outside(m: u64) -> bool
    requires { m < ones doubles.format * hid doubles.format }
    ensures { result ≡ not (in_range double_pairs m) }
{
    (m != 0) & ((m < Pairs::LEAST) | (Pairs::MOST < m))
}

// A pair at a place, by the patterns of its factors: rules R2 and R23.
fn judge_pair(p: u64, q: u64, place: u32) -> Result<(), Refusal>
    ensures { as_verdict result ≡ verdict_at (pair_fault double_pairs (p, q)) place }
{
    let a = p % SIGN;
    let b = q % SIGN;
    if (INFINITY <= a) | (INFINITY <= b) {
        return Err(Refusal::NotFinite(place));
    }
    if outside(a) | outside(b) {
        return Err(Refusal::FactorOutside(place));
    }
    Ok(())
}

// The first bad place, with the fault that its pair has. The bound on the length, which `judge` tests, is there because a place is told in 32 bits.
fn first_fault(a: &[u64], b: &[u64]) -> Result<(), Refusal>
    requires { (length a.now ≤ double_pairs.length) × (length a.now ≡ length b.now) }
    ensures { as_verdict result ≡ first_bad (pair_fault double_pairs) (zip a.now b.now) 0 }
{
    for (place, &p) in a.iter().enumerate() {
        judge_pair(p, b[place], place as u32)?;
    }
    Ok(())
}

// Rule O12, where area says whether the lent area has the right length.
pub fn judge(a: &[u64], b: &[u64], area: bool) -> Result<(), Refusal>
    ensures { as_verdict result ≡ pairs_judged double_pairs area a.now b.now }
{
    if (Pairs::LENGTH < a.len()) | (Pairs::LENGTH < b.len()) {
        return Err(Refusal::TooMany);
    }
    if a.len() != b.len() {
        return Err(Refusal::LengthsDiffer);
    }
    if !area {
        return Err(Refusal::WrongLength);
    }
    first_fault(a, b)
}
