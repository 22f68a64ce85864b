// What the calls have in common: the code of a refusal, the judgement of the lengths, and the 16 bytes of a sum.
#![tactic(auto)]

ghost use Rattle.std.specs.Prelude.{◌≡◌, [], ◌∷◌, ◌≤◌, IfErr, length};
ghost use Rattle.kinds.specs.Limits.{doubles};
ghost use Rattle.kinds.specs.Refusals.{place};
ghost use Rattle.octets.specs.Octets.{packed};
ghost use Rattle.calls.specs.Calls.{sum_bytes, length_fault};
ghost use Rattle.calls.specs.Inner.{refusal_code, code};

use kinds::{Doubles, Refusal};
use octets::little::SIZE;

// The bytes of a sum: rule C4.
pub const SUM: usize = 2 * SIZE;

// The code of a refusal: rule C3.
pub fn refusal(refusal: Refusal) -> u32
    requires { place refusal ≤ doubles.length }
    ensures { result ≡ refusal_code refusal }
{
    match refusal.place() {
        None => refusal.number(),
        Some(place) => refusal.number() + 32 * (place + 1),
    }
}

// The code of a call that answers nothing else: 0, or that of its refusal.
pub fn code(answer: Result<(), Refusal>) -> u32
    requires { IfErr answer (λ refusal. place refusal ≤ doubles.length) }
    ensures { result ≡ code answer }
{
    match answer {
        Ok(()) => 0,
        Err(reason) => refusal(reason),
    }
}

// Rule C6: 1 or 4.
pub fn lengths(list: &[u8], out: &[u8]) -> Result<(), Refusal>
    ensures told { IfErr result (λ refusal. place refusal ≤ doubles.length) }
    ensures coded { code result ≡ length_fault (length list.now) (length out.now) }
{
    if SIZE * Doubles::LENGTH < list.len() {
        return Err(Refusal::TooMany);
    }
    if list.len() % SIZE != 0 || out.len() != SUM {
        return Err(Refusal::WrongLength);
    }
    Ok(())
}

// An accepted sum to its 16 bytes.
pub fn answer(pattern: u64, rounds: u64, out: &mut [u8])
    requires { length out.old ≡ sum_bytes }
    ensures { out.new ≡ packed (pattern ∷ rounds ∷ []) }
{
    octets::little::pack(&[pattern, rounds], out);
}
