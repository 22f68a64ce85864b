// What is entered in a register in bytes, before its answer is a code.
ghost use Rattle.std.specs.Prelude.{◌≡◌, ◌≤◌, IfErr};
ghost use Rattle.kinds.specs.Limits.{doubles};
ghost use Rattle.kinds.specs.Outcome.{outcome};
ghost use Rattle.kinds.specs.Refusals.{place};
ghost use Rattle.calls.specs.Calls.{add_call, withdraw_call};
ghost use Rattle.calls.specs.Inner.{code};

use kinds::Refusal;
use octets::little::SIZE;
use words::WORDS;

// rule C5
const BYTES: usize = SIZE * WORDS;

// The words go to the register's bytes; a refusal leaves them.
#[tactic(auto, unfolding(calls::specs::Calls::register_call, calls::specs::Calls::answered))]
pub fn add(register: &mut [u8], pattern: u64) -> Result<(), Refusal>
    ensures told { IfErr result (λ refusal. place refusal ≤ doubles.length) }
    ensures written { outcome (code result) register.new ≡ add_call register.old pattern }
{
    if register.len() != BYTES {
        return Err(Refusal::WrongLength);
    }
    let mut words = [0u64; WORDS];
    octets::little::unpack(register, &mut words);
    register::add(&mut words, pattern)?;
    octets::little::pack(&words, register);
    Ok(())
}

#[tactic(auto, unfolding(calls::specs::Calls::register_call, calls::specs::Calls::answered))]
pub fn withdraw(register: &mut [u8], pattern: u64) -> Result<(), Refusal>
    ensures told { IfErr result (λ refusal. place refusal ≤ doubles.length) }
    ensures written { outcome (code result) register.new ≡ withdraw_call register.old pattern }
{
    if register.len() != BYTES {
        return Err(Refusal::WrongLength);
    }
    let mut words = [0u64; WORDS];
    octets::little::unpack(register, &mut words);
    register::withdraw(&mut words, pattern)?;
    octets::little::pack(&words, register);
    Ok(())
}
