// Which lists are allowed: the fault of one pattern, and the first refusal of a list; and the sign of a zero sum.
#![tactic(auto)]

use kinds::{Fault, Floating, Refusal};

mod greatest;

ghost use Rattle.std.specs.Prelude.{◌≡◌, ◌≤◌, length, IfOk};
ghost use Rattle.kinds.specs.Refusals.{fault_numbered};
ghost use Rattle.kinds.specs.Answers.{as_verdict};
ghost use Rattle.judge.specs.GreatestLaws.{greatest};
ghost use Rattle.judge.specs.Judge.{fault_of, first_fault, judged, zero_sign};

// Rules R2 and R3, of one number by its pattern.
pub fn fault<F: Floating>(p: F::Pattern) -> Option<Fault>
    ensures { fault_numbered result ≡ fault_of F.width (F.pattern p) }
{
    let magnitude = F::word(F::unsigned(p));
    if F::INFINITY <= magnitude {
        return Some(Fault::NotFinite);
    }
    if F::MAGNITUDE < magnitude {
        return Some(Fault::TooLarge);
    }
    None
}

// The first bad place, with the fault that it has. The bound on the length, which `measure` tests, is there because a place is told in 32 bits.
fn first_fault<F: Floating>(list: &[F::Pattern]) -> Result<(), Refusal>
    requires { length list.now ≤ F.width.length }
    ensures { as_verdict result ≡ first_fault F.width (F.patterns list.now) 0 }
{
    for (place, p) in list.iter().enumerate() {
        if let Some(fault) = fault::<F>(*p) {
            return Err(fault.at(place as u32));
        }
    }
    Ok(())
}

// Rule O1, with the greatest pattern of a good list: its sign taken off, so that it stands for the largest magnitude. Either fault of a number is a pattern
// above the limit's: a NaN's and an infinity's are above every number's. A list is only read (rule A4).
pub fn measure<F: Floating>(
    list: &[F::Pattern],
    area: bool,
    parts: bool,
) -> Result<F::Pattern, Refusal>
    ensures judged { as_verdict result ≡ judged F.width area parts (F.patterns list.now) }
    ensures greatest { IfOk result (λ p. F.pattern p ≡ greatest F.width (F.patterns list.now)) }
{
    if F::LENGTH < list.len() {
        return Err(Refusal::TooMany);
    }
    if !area {
        return Err(Refusal::WrongLength);
    }
    if !parts {
        return Err(Refusal::WrongParts);
    }
    let most = greatest::greatest::<F>(list);
    if F::MAGNITUDE < F::word(most) {
        first_fault::<F>(list)?;
    }
    Ok(most)
}

// The verdict alone.
pub fn judge<F: Floating>(list: &[F::Pattern], area: bool, parts: bool) -> Result<(), Refusal>
    ensures { as_verdict result ≡ judged F.width area parts (F.patterns list.now) }
{
    measure::<F>(list, area, parts)?;
    Ok(())
}

// Rule S3: the sign of the zero that a list with exact sum zero answers, the same for the faithful sum, the nearest and the first part. The look ends at the
// first number that isn't -0, so that a list which doesn't begin with one costs a comparison.
pub fn zero_sign<F: Floating>(list: &[F::Pattern]) -> bool
    ensures { result ≡ zero_sign F.width (F.patterns list.now) }
{
    for p in list {
        if F::word(*p) != F::SIGN {
            return false;
        }
    }
    !list.is_empty()
}
