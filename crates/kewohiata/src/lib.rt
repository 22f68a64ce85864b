// The C library: an export for each call, which calls the crate that has it and states its clauses again. A crate is built for Rattle or for C, not for both.
#![tactic(auto)]

ghost use Rattle.arrays.specs.Arrays.{returned};
ghost use Rattle.calls.specs.Calls.{faithful_call, nearest_call, add_call, withdraw_call};
ghost use Rattle.grade_calls.specs.GradeArrays.{grade_arrays};
ghost use Rattle.kinds.specs.Outcome.{outcome};
ghost use Rattle.lane_calls.specs.LaneArrays.{add_lanes, withdraw_lanes, settle_returned, settle_lanes};
ghost use Rattle.pair_calls.specs.PairArrays.{products_arrays, weighted_arrays};
ghost use Rattle.part_calls.specs.PartArrays.{parts_arrays};
ghost use Rattle.register_calls.specs.RegisterArrays.{add_arrays, withdraw_arrays, merge_arrays, round_arrays};
ghost use Rattle.sheet_calls.specs.RescueArrays.{rescue_returned, rescue_arrays};
ghost use Rattle.sheet_calls.specs.SheetArrays.{read_arrays, write_arrays};
ghost use Rattle.std.specs.Prelude.{◌≡◌};
ghost use Rattle.step_calls.specs.StepArrays.{open_arrays, step_arrays, open_singles, step_singles};
ghost use Rattle.sum_calls.specs.SumArrays.{faithful_arrays, nearest_arrays, faithful_singles, nearest_singles};
ghost use Rattle.weight_calls.specs.WeightArrays.{hand_on_arrays};

// The faithful sum, as `walk::faithful` has it, over a work area of its own (rule C7): the shortest of three that holds the list.
#[unsafe(no_mangle)]
pub extern "C" fn kewohiata_faithful(list: &[u8], out: &mut [u8]) -> u32
    ensures { outcome result out.new ≡ faithful_call list.now out.old }
{
    byte_calls::kewohiata_faithful(list, out)
}

// The nearest sum, as `sums::nearest` has it.
#[unsafe(no_mangle)]
pub extern "C" fn kewohiata_nearest(list: &[u8], out: &mut [u8]) -> u32
    ensures { outcome result out.new ≡ nearest_call list.now out.old }
{
    byte_calls::kewohiata_nearest(list, out)
}

// Adds one number to a register, as `register::add` does.
#[unsafe(no_mangle)]
pub extern "C" fn kewohiata_register_add(register: &mut [u8], pattern: u64) -> u32
    ensures { outcome result register.new ≡ add_call register.old pattern }
{
    byte_calls::kewohiata_register_add(register, pattern)
}

// Takes one number out of a register, as `register::withdraw` does.
#[unsafe(no_mangle)]
pub extern "C" fn kewohiata_register_withdraw(register: &mut [u8], pattern: u64) -> u32
    ensures { outcome result register.new ≡ withdraw_call register.old pattern }
{
    byte_calls::kewohiata_register_withdraw(register, pattern)
}

// Opens the walk of a list, as `walk::open` does. The state is ten numbers.
#[unsafe(no_mangle)]
pub extern "C" fn kewohiata_walk_open(
    list: &[u64],
    work: &mut [f64],
    state: &mut [u64],
    ensemble: u32,
) -> u32
    ensures { returned result work.new state.new ≡ open_arrays ensemble list.now work.old state.old }
{
    step_calls::kewohiata_walk_open(list, work, state, ensemble)
}

// Takes one block of a walk, as `walk::step` does. Numbers that are no state's are refused in the same order: 4; 21 where the eighth isn't the number named, as
// none above 32 bits is; else 8.
#[unsafe(no_mangle)]
pub extern "C" fn kewohiata_walk_step(
    state: &mut [u64],
    work: &mut [f64],
    block: usize,
    ensemble: u32,
) -> u32
    ensures { returned result work.new state.new ≡ step_arrays state.old work.old ensemble block }
{
    step_calls::kewohiata_walk_step(state, work, block, ensemble)
}

// The faithful sum of a list, as `walk::faithful` has it: its pattern and the rounds.
#[unsafe(no_mangle)]
pub extern "C" fn kewohiata_walk_faithful(list: &[u64], work: &mut [f64], out: &mut [u64]) -> u32
    ensures { returned result work.new out.new ≡ faithful_arrays list.now work.old out.old }
{
    sum_calls::kewohiata_walk_faithful(list, work, out)
}

// The nearest sum of a list, as `sums::nearest` has it: its pattern.
#[unsafe(no_mangle)]
pub extern "C" fn kewohiata_list_nearest(list: &[u64], out: &mut [u64]) -> u32
    ensures { outcome result out.new ≡ nearest_arrays list.now out.old }
{
    sum_calls::kewohiata_list_nearest(list, out)
}

// The sum of a list in parts, as `sums::parts` has it: 1 where they add up, else 0.
#[unsafe(no_mangle)]
pub extern "C" fn kewohiata_list_parts(list: &[u64], parts: &mut [f64], out: &mut [u64]) -> u32
    ensures { returned result parts.new out.new ≡ parts_arrays list.now parts.old out.old }
{
    part_calls::kewohiata_list_parts(list, parts, out)
}

// The grade of a claim, as `grade::grade` has it: 0 exact, 1 nearest, 2 faithful, 3 wrong.
#[unsafe(no_mangle)]
pub extern "C" fn kewohiata_list_grade(list: &[u64], claim: u64, out: &mut [u64]) -> u32
    ensures { outcome result out.new ≡ grade_arrays list.now claim out.old }
{
    grade_calls::kewohiata_list_grade(list, claim, out)
}

// Adds one number, as `register::add` does.
#[unsafe(no_mangle)]
pub extern "C" fn kewohiata_words_add(words: &mut [u64], pattern: u64) -> u32
    ensures { outcome result words.new ≡ add_arrays words.old pattern }
{
    register_calls::kewohiata_words_add(words, pattern)
}

// Takes one number out, as `register::withdraw` does.
#[unsafe(no_mangle)]
pub extern "C" fn kewohiata_words_withdraw(words: &mut [u64], pattern: u64) -> u32
    ensures { outcome result words.new ≡ withdraw_arrays words.old pattern }
{
    register_calls::kewohiata_words_withdraw(words, pattern)
}

// The sum of two registers goes to a third, as by `register::merge`.
#[unsafe(no_mangle)]
pub extern "C" fn kewohiata_words_merge(a: &[u64], b: &[u64], out: &mut [u64]) -> u32
    ensures { outcome result out.new ≡ merge_arrays a.now b.now out.old }
{
    register_calls::kewohiata_words_merge(a, b, out)
}

// The double nearest to the total, as `register::round` has it: its pattern.
#[unsafe(no_mangle)]
pub extern "C" fn kewohiata_words_round(words: &[u64], out: &mut [u64]) -> u32
    ensures { outcome result out.new ≡ round_arrays words.now out.old }
{
    register_calls::kewohiata_words_round(words, out)
}

// Adds one number, as `lanes::add` does: the next count.
#[unsafe(no_mangle)]
pub extern "C" fn kewohiata_lanes_add(
    lanes: &mut [i64],
    count: u64,
    pattern: u64,
    out: &mut [u64],
) -> u32
    ensures { returned result lanes.new out.new ≡ add_lanes lanes.old count pattern out.old }
{
    lane_calls::kewohiata_lanes_add(lanes, count, pattern, out)
}

// Takes one number out, as `lanes::withdraw` does: the next count.
#[unsafe(no_mangle)]
pub extern "C" fn kewohiata_lanes_withdraw(
    lanes: &mut [i64],
    count: u64,
    pattern: u64,
    out: &mut [u64],
) -> u32
    ensures { returned result lanes.new out.new ≡ withdraw_lanes lanes.old count pattern out.old }
{
    lane_calls::kewohiata_lanes_withdraw(lanes, count, pattern, out)
}

// Settles the lanes and writes their words, as `lanes::settle` does: the count that starts afresh.
#[unsafe(no_mangle)]
pub extern "C" fn kewohiata_lanes_settle(
    lanes: &mut [i64],
    count: u64,
    words: &mut [u64],
    out: &mut [u64],
) -> u32
    ensures { settle_returned result lanes.new words.new out.new
        ≡ settle_lanes lanes.old count words.old out.old }
{
    lane_calls::kewohiata_lanes_settle(lanes, count, words, out)
}

// Reads the patterns of a sheet, as `sheet::read` does: their count.
#[unsafe(no_mangle)]
pub extern "C" fn kewohiata_sheet_read(sheet: &[u8], area: &mut [u64], out: &mut [u64]) -> u32
    ensures { returned result area.new out.new ≡ read_arrays sheet.now area.old out.old }
{
    sheet_calls::kewohiata_sheet_read(sheet, area, out)
}

// Writes a list as a sheet, as `sheet::write` does: how many bytes.
#[unsafe(no_mangle)]
pub extern "C" fn kewohiata_sheet_write(list: &[u64], sheet: &mut [u8], out: &mut [u64]) -> u32
    ensures { returned result sheet.new out.new ≡ write_arrays list.now sheet.old out.old }
{
    sheet_calls::kewohiata_sheet_write(list, sheet, out)
}

// Rescues what a damaged sheet holds, as `rescue::rescue` does: its report in four numbers.
#[unsafe(no_mangle)]
pub extern "C" fn kewohiata_sheet_rescue(
    damaged: &[u8],
    sheet: &mut [u8],
    marks: &mut [u8],
    report: &mut [u64],
) -> u32
    ensures { rescue_returned result sheet.new marks.new report.new
        ≡ rescue_arrays damaged.now sheet.old marks.old report.old }
{
    sheet_calls::kewohiata_sheet_rescue(damaged, sheet, marks, report)
}

// The new weights of those who stay, as `weights::hand_on` has them.
#[unsafe(no_mangle)]
pub extern "C" fn kewohiata_weights_hand_on(list: &[u64], leaver: usize, out: &mut [u64]) -> u32
    ensures { outcome result out.new ≡ hand_on_arrays list.now leaver out.old }
{
    weight_calls::kewohiata_weights_hand_on(list, leaver, out)
}

// The products of pairs, each with its exact error, as `pairs::products` has them.
#[unsafe(no_mangle)]
pub extern "C" fn kewohiata_pairs_products(a: &[u64], b: &[u64], out: &mut [u64]) -> u32
    ensures { outcome result out.new ≡ products_arrays a.now b.now out.old }
{
    pair_calls::kewohiata_pairs_products(a, b, out)
}

// The nearest weighted sum, as `pairs::nearest` has it: its pattern. The call is lent no area for the products, and keeps 33 words of its own.
#[unsafe(no_mangle)]
pub extern "C" fn kewohiata_pairs_nearest(a: &[u64], b: &[u64], out: &mut [u64]) -> u32
    ensures { outcome result out.new ≡ weighted_arrays a.now b.now out.old }
{
    pair_calls::kewohiata_pairs_nearest(a, b, out)
}

// Opens the walk of a list, as `walk::open` does at binary32. The state is ten numbers.
#[unsafe(no_mangle)]
pub extern "C" fn kewohiata_single_open(
    list: &[u32],
    work: &mut [f32],
    state: &mut [u64],
    ensemble: u32,
) -> u32
    ensures { returned result work.new state.new ≡ open_singles ensemble list.now work.old state.old }
{
    step_calls::kewohiata_single_open(list, work, state, ensemble)
}

// Takes one block of a walk, as `walk::step` does at binary32. Numbers that are no state's are refused in the same order: 4; 21 where the eighth isn't the
// number named, as none above 32 bits is; else 8.
#[unsafe(no_mangle)]
pub extern "C" fn kewohiata_single_step(
    state: &mut [u64],
    work: &mut [f32],
    block: usize,
    ensemble: u32,
) -> u32
    ensures { returned result work.new state.new ≡ step_singles state.old work.old ensemble block }
{
    step_calls::kewohiata_single_step(state, work, block, ensemble)
}

// The faithful sum of a list, as `walk::faithful` has it at binary32: its pattern and the rounds.
#[unsafe(no_mangle)]
pub extern "C" fn kewohiata_single_faithful(list: &[u32], work: &mut [f32], out: &mut [u64]) -> u32
    ensures { returned result work.new out.new ≡ faithful_singles list.now work.old out.old }
{
    sum_calls::kewohiata_single_faithful(list, work, out)
}

// The nearest sum of a list, as `sums::nearest` has it at binary32: its pattern.
#[unsafe(no_mangle)]
pub extern "C" fn kewohiata_single_nearest(list: &[u32], out: &mut [u64]) -> u32
    ensures { outcome result out.new ≡ nearest_singles list.now out.old }
{
    sum_calls::kewohiata_single_nearest(list, out)
}
