// The exact register: 33 lent words that count units in two's complement.
#![tactic(auto)]

use kinds::{INFINITY, Refusal};
use words::WORDS;

mod range;
mod two;

ghost use Rattle.std.specs.Prelude.{◌≡◌, length};
ghost use Rattle.kinds.specs.Answers.{itself, as_entry, as_nearest};
ghost use Rattle.kinds.specs.Limits.{doubles};
ghost use Rattle.kinds.specs.Outcome.{outcome};
ghost use Rattle.judge.specs.Judge.{fault_of};
ghost use Rattle.words.specs.Words.{word_count};
ghost use Rattle.register.specs.Register.{added, withdrawn, rounded};
ghost use Rattle.register.specs.Merge.{merged};

// Adds one allowed number: rules G1 and O3. The length is looked at before the number.
#[tactic(auto, unfolding(crate::specs::Register::enter))]
pub fn add(register: &mut [u64], p: u64) -> Result<(), Refusal>
    ensures { outcome (as_entry result) register.new ≡ added register.old p }
{
    match judge::fault::<f64>(p) {
        _ if register.len() != WORDS => Err(Refusal::WrongLength),
        Some(fault) => Err(fault.at(0)),
        None => enter(register, p),
    }
}

// The same of a number without a fault, in a register that has its words. Where the sum leaves the range, the number is taken again.
fn enter(register: &mut [u64], p: u64) -> Result<(), Refusal>
    requires { (length register.old ≡ word_count) × (fault_of doubles p ≡ 0) }
    ensures { outcome (as_entry result) register.new ≡ added register.old p }
{
    let before = range::sign(register);
    addend::add::<f64>(register, p);
    if range::left(p, before, range::sign(register)) {
        addend::withdraw(register, p);
        return Err(Refusal::RegisterFull);
    }
    Ok(())
}

// Takes one allowed number out, with the same refusals: it adds the opposite number (rule G2).
pub fn withdraw(register: &mut [u64], p: u64) -> Result<(), Refusal>
    ensures { outcome (as_entry result) register.new ≡ withdrawn register.old p }
{
    add(register, addend::opposite(p))
}

// Rules G4 and O4: an infinity is refused (rule G5).
#[tactic(auto, unfolding(crate::specs::Register::rounded))]
pub fn round(register: &[u64]) -> Result<f64, Refusal>
    ensures { as_nearest itself result ≡ rounded register.now }
{
    if register.len() == WORDS {
        nearest_finite(register)
    } else {
        Err(Refusal::WrongLength)
    }
}

// The same of a register that has its words.
#[tactic(auto, using(crate::proofs::Rounding::beyond, crate::proofs::Rounding::sum))]
fn nearest_finite(register: &[u64]) -> Result<f64, Refusal>
    requires { length register.now ≡ word_count }
    ensures { as_nearest itself result ≡ rounded register.now }
{
    let b = nearest::bits::nearest_bits::<f64>(register, false);
    if INFINITY <= b.magnitude {
        return Err(Refusal::NoFiniteDouble);
    }
    Ok(nearest::bits::float(b))
}

// The sum of two registers goes to a third: rules G7 and O9.
#[tactic(auto, unfolding(crate::specs::Merge::merged))]
pub fn merge(a: &[u64], b: &[u64], out: &mut [u64]) -> Result<(), Refusal>
    ensures { outcome (as_entry result) out.new ≡ merged a.now b.now out.old }
{
    if a.len() != WORDS || b.len() != WORDS || out.len() != WORDS {
        return Err(Refusal::WrongLength);
    }
    two::merged(a, b, out)
}
