// The walk by blocks, for C: a state is ten numbers (rule C11).
#![tactic(auto)]

mod inner;
mod numbers;

ghost use Rattle.std.specs.Prelude.{◌≡◌};
ghost use Rattle.arrays.specs.Arrays.{returned};
ghost use Rattle.step_calls.specs.StepArrays.{open_arrays, step_arrays, open_singles, step_singles};

// Opens the walk of a list, as `walk::open` does. The state is ten numbers.
#[unsafe(no_mangle)]
pub extern "C" fn kewohiata_walk_open(
    list: &[u64],
    work: &mut [f64],
    state: &mut [u64],
    ensemble: u32,
) -> u32
    ensures { returned result work.new state.new ≡ open_arrays ensemble list.now work.old state.old }
{
    calls::code(inner::open::<f64>(list, work, state, ensemble))
}

// Takes one block of a walk, as `walk::step` does.
#[unsafe(no_mangle)]
pub extern "C" fn kewohiata_walk_step(
    state: &mut [u64],
    work: &mut [f64],
    block: usize,
    ensemble: u32,
) -> u32
    ensures { returned result work.new state.new ≡ step_arrays state.old work.old ensemble block }
{
    calls::code(inner::step::<f64>(state, work, block, ensemble))
}

// Opens the walk of a list, as `walk::open` does at binary32. The state is ten numbers.
#[unsafe(no_mangle)]
pub extern "C" fn kewohiata_single_open(
    list: &[u32],
    work: &mut [f32],
    state: &mut [u64],
    ensemble: u32,
) -> u32
    ensures { returned result work.new state.new ≡ open_singles ensemble list.now work.old state.old }
{
    calls::code(inner::open::<f32>(list, work, state, ensemble))
}

// Takes one block of a walk, as `walk::step` does at binary32.
#[unsafe(no_mangle)]
pub extern "C" fn kewohiata_single_step(
    state: &mut [u64],
    work: &mut [f32],
    block: usize,
    ensemble: u32,
) -> u32
    ensures { returned result work.new state.new ≡ step_singles state.old work.old ensemble block }
{
    calls::code(inner::step::<f32>(state, work, block, ensemble))
}
