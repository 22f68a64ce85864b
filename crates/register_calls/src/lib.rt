// A register's words, for C: an addition, a withdrawal, a merge, and the double nearest to them.
#![tactic(auto)]

ghost use Rattle.std.specs.Prelude.{◌≡◌};
ghost use Rattle.kinds.specs.Outcome.{outcome};
ghost use Rattle.register_calls.specs.RegisterArrays.{add_arrays, withdraw_arrays, merge_arrays, round_arrays};

use calls::{code, refusal};
use kinds::Refusal;

// Rule C10: a rounding writes one value.
const VALUES: usize = 1;

// Adds one number, as `register::add` does.
#[unsafe(no_mangle)]
pub extern "C" fn kewohiata_words_add(words: &mut [u64], pattern: u64) -> u32
    ensures { outcome result words.new ≡ add_arrays words.old pattern }
{
    code(register::add(words, pattern))
}

// Takes one number out, as `register::withdraw` does.
#[unsafe(no_mangle)]
pub extern "C" fn kewohiata_words_withdraw(words: &mut [u64], pattern: u64) -> u32
    ensures { outcome result words.new ≡ withdraw_arrays words.old pattern }
{
    code(register::withdraw(words, pattern))
}

// The sum of two registers goes to a third, as by `register::merge`.
#[unsafe(no_mangle)]
pub extern "C" fn kewohiata_words_merge(a: &[u64], b: &[u64], out: &mut [u64]) -> u32
    ensures { outcome result out.new ≡ merge_arrays a.now b.now out.old }
{
    code(register::merge(a, b, out))
}

// The double nearest to the total, as `register::round` has it: its pattern.
#[unsafe(no_mangle)]
pub extern "C" fn kewohiata_words_round(words: &[u64], out: &mut [u64]) -> u32
    ensures { outcome result out.new ≡ round_arrays words.now out.old }
{
    if out.len() != VALUES {
        return refusal(Refusal::WrongLength);
    }
    code(arrays::values::nearest::<f64>(register::round(words), out))
}
