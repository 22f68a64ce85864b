// The sums of a list in one call, for C.
#![tactic(auto)]

mod inner;

ghost use Rattle.std.specs.Prelude.{◌≡◌};
ghost use Rattle.kinds.specs.Outcome.{outcome};
ghost use Rattle.arrays.specs.Arrays.{returned};
ghost use Rattle.sum_calls.specs.SumArrays.{faithful_arrays, nearest_arrays, faithful_singles, nearest_singles};

// The faithful sum of a list, as `walk::faithful` has it: its pattern and the rounds.
#[unsafe(no_mangle)]
pub extern "C" fn kewohiata_walk_faithful(list: &[u64], work: &mut [f64], out: &mut [u64]) -> u32
    ensures { returned result work.new out.new ≡ faithful_arrays list.now work.old out.old }
{
    calls::code(inner::faithful(list, work, out))
}

// The nearest sum of a list, as `sums::nearest` has it: its pattern.
#[unsafe(no_mangle)]
pub extern "C" fn kewohiata_list_nearest(list: &[u64], out: &mut [u64]) -> u32
    ensures { outcome result out.new ≡ nearest_arrays list.now out.old }
{
    calls::code(inner::nearest::<f64>(list, out))
}

// The faithful sum of a list of singles, as `walk::faithful` has it at binary32.
#[unsafe(no_mangle)]
pub extern "C" fn kewohiata_single_faithful(list: &[u32], work: &mut [f32], out: &mut [u64]) -> u32
    ensures { returned result work.new out.new ≡ faithful_singles list.now work.old out.old }
{
    calls::code(inner::faithful(list, work, out))
}

// The nearest sum of a list of singles, as `sums::nearest` has it at binary32.
#[unsafe(no_mangle)]
pub extern "C" fn kewohiata_single_nearest(list: &[u32], out: &mut [u64]) -> u32
    ensures { outcome result out.new ≡ nearest_singles list.now out.old }
{
    calls::code(inner::nearest::<f32>(list, out))
}
