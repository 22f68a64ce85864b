// Products of pairs and the nearest weighted sum, for C.
#![tactic(auto)]

ghost use Rattle.std.specs.Prelude.{◌≡◌, ◌≤◌, IfErr};
ghost use Rattle.kinds.specs.Limits.{doubles};
ghost use Rattle.kinds.specs.Outcome.{outcome};
ghost use Rattle.kinds.specs.Refusals.{place};
ghost use Rattle.calls.specs.Inner.{code, refusal_code};
ghost use Rattle.pair_calls.specs.PairArrays.{products_arrays, weighted_arrays, other_length};

use arrays::values;
use kinds::Refusal;
use pairs::Pairs;

// The products of pairs, each with its exact error, as `pairs::products` has them.
#[unsafe(no_mangle)]
pub extern "C" fn kewohiata_pairs_products(a: &[u64], b: &[u64], out: &mut [u64]) -> u32
    ensures { outcome result out.new ≡ products_arrays a.now b.now out.old }
{
    calls::code(pairs::products(a, b, out))
}

// The refusal where the array of the value has another length: 4, and 1 and 22 before it.
fn other_length(a: &[u64], b: &[u64]) -> Refusal
    ensures told { place result ≤ doubles.length }
    ensures code { refusal_code result ≡ other_length a.now b.now }
{
    if (Pairs::LENGTH < a.len()) | (Pairs::LENGTH < b.len()) {
        return Refusal::TooMany;
    }
    if a.len() != b.len() {
        return Refusal::LengthsDiffer;
    }
    Refusal::WrongLength
}

// The nearest weighted sum, its pattern to an array of one place.
fn weighted(a: &[u64], b: &[u64], out: &mut [u64]) -> Result<(), Refusal>
    ensures told { IfErr result (λ refusal. place refusal ≤ doubles.length) }
    ensures weighted { outcome (code result) out.new ≡ weighted_arrays a.now b.now out.old }
{
    if out.len() != 1 {
        return Err(other_length(a, b));
    }
    values::nearest(pairs::nearest(a, b), out)
}

// The nearest weighted sum, as `pairs::nearest` has it. The call is lent no area for the products, and keeps 33 words of its own.
#[unsafe(no_mangle)]
pub extern "C" fn kewohiata_pairs_nearest(a: &[u64], b: &[u64], out: &mut [u64]) -> u32
    ensures { outcome result out.new ≡ weighted_arrays a.now b.now out.old }
{
    calls::code(weighted(a, b, out))
}
