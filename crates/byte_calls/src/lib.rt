// The calls on bytes, for a host program: rules C1 and F7.
#![tactic(auto)]

ghost use Rattle.std.specs.Prelude.{◌≡◌};
ghost use Rattle.kinds.specs.Outcome.{outcome};
ghost use Rattle.calls.specs.Calls.{faithful_call, nearest_call, add_call, withdraw_call};

mod entries;
mod faithful;
mod nearest_sum;

// The faithful sum, as `walk::faithful` has it, over a work area of its own.
#[unsafe(no_mangle)]
pub extern "C" fn kewohiata_faithful(list: &[u8], out: &mut [u8]) -> u32
    ensures { outcome result out.new ≡ faithful_call list.now out.old }
{
    calls::code(faithful::called(list, out))
}

// The nearest sum, as `sums::nearest` has it.
#[unsafe(no_mangle)]
pub extern "C" fn kewohiata_nearest(list: &[u8], out: &mut [u8]) -> u32
    ensures { outcome result out.new ≡ nearest_call list.now out.old }
{
    calls::code(nearest_sum::called(list, out))
}

// Adds one number to a register, as `register::add` does.
#[unsafe(no_mangle)]
pub extern "C" fn kewohiata_register_add(register: &mut [u8], pattern: u64) -> u32
    ensures { outcome result register.new ≡ add_call register.old pattern }
{
    calls::code(entries::add(register, pattern))
}

// Takes one number out of a register, as `register::withdraw` does.
#[unsafe(no_mangle)]
pub extern "C" fn kewohiata_register_withdraw(register: &mut [u8], pattern: u64) -> u32
    ensures { outcome result register.new ≡ withdraw_call register.old pattern }
{
    calls::code(entries::withdraw(register, pattern))
}
