// A sheet, for C: read to a lent array of patterns, written to lent bytes, and rescued.
#![tactic(auto)]

mod inner;

ghost use Rattle.std.specs.Prelude.{◌≡◌};
ghost use Rattle.arrays.specs.Arrays.{returned};
ghost use Rattle.sheet_calls.specs.SheetArrays.{read_arrays, write_arrays};
ghost use Rattle.sheet_calls.specs.RescueArrays.{rescue_returned, rescue_arrays};

// Reads the patterns of a sheet, as `sheet::read` does: their count.
#[unsafe(no_mangle)]
pub extern "C" fn kewohiata_sheet_read(sheet: &[u8], area: &mut [u64], out: &mut [u64]) -> u32
    ensures { returned result area.new out.new ≡ read_arrays sheet.now area.old out.old }
{
    calls::code(inner::read(sheet, area, out))
}

// Writes a list as a sheet, as `sheet::write` does: how many bytes.
#[unsafe(no_mangle)]
pub extern "C" fn kewohiata_sheet_write(list: &[u64], sheet: &mut [u8], out: &mut [u64]) -> u32
    ensures { returned result sheet.new out.new ≡ write_arrays list.now sheet.old out.old }
{
    calls::code(inner::write(list, sheet, out))
}

// Rescues what a damaged sheet holds, as `rescue::rescue` does: its report in four numbers.
#[unsafe(no_mangle)]
pub extern "C" fn kewohiata_sheet_rescue(
    damaged: &[u8],
    sheet: &mut [u8],
    marks: &mut [u8],
    report: &mut [u64],
) -> u32
    ensures { rescue_returned result sheet.new marks.new report.new
        ≡ rescue_arrays damaged.now sheet.old marks.old report.old }
{
    calls::code(inner::rescue(damaged, sheet, marks, report))
}
