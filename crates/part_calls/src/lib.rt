// The sum of a list in parts, for C.
#![tactic(auto)]

ghost use Rattle.std.specs.Prelude.{◌≡◌, ◌≤◌, IfErr};
ghost use Rattle.kinds.specs.Limits.{doubles};
ghost use Rattle.kinds.specs.Refusals.{place};
ghost use Rattle.calls.specs.Inner.{code};
ghost use Rattle.arrays.specs.Arrays.{returned};
ghost use Rattle.part_calls.specs.PartArrays.{parts_arrays};

use arrays::lengths::too_many_or_4;
use kinds::Refusal;

// The sum of a list in parts: 1 to an array of one place where they add up, else 0.
fn parted(list: &[u64], parts: &mut [f64], out: &mut [u64]) -> Result<(), Refusal>
    ensures told { IfErr result (λ refusal. place refusal ≤ doubles.length) }
    ensures parted { returned (code result) parts.new out.new ≡ parts_arrays list.now parts.old out.old }
{
    if out.len() != 1 {
        return Err(too_many_or_4::<f64>(list));
    }
    let all = sums::parts(list, parts)?;
    out.copy_from_slice(&[u64::from(all)]);
    Ok(())
}

// The sum of a list in parts, as `sums::parts` has it.
#[unsafe(no_mangle)]
pub extern "C" fn kewohiata_list_parts(list: &[u64], parts: &mut [f64], out: &mut [u64]) -> u32
    ensures { returned result parts.new out.new ≡ parts_arrays list.now parts.old out.old }
{
    calls::code(parted(list, parts, out))
}
