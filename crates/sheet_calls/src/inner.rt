// The calls before their answer is a code. Where the array of values has another length, 4 comes last: so a sheet is looked at first, over areas without a
// place, to which nothing is written.
ghost use Rattle.std.specs.Prelude.{◌≡◌, ◌≤◌, IfErr};
ghost use Rattle.kinds.specs.Limits.{doubles};
ghost use Rattle.kinds.specs.Refusals.{place};
ghost use Rattle.calls.specs.Inner.{code};
ghost use Rattle.arrays.specs.Arrays.{returned};
ghost use Rattle.sheet_calls.specs.SheetArrays.{read_arrays, write_arrays};
ghost use Rattle.sheet_calls.specs.RescueArrays.{rescue_returned, rescue_arrays};

use arrays::lengths::too_many_or_4;
use kinds::Refusal;

#[tactic(auto, unfolding(crate::specs::SheetArrays::read_arrays))]
pub fn read(sheet: &[u8], area: &mut [u64], out: &mut [u64]) -> Result<(), Refusal>
    ensures told { IfErr result (λ refusal. place refusal ≤ doubles.length) }
    ensures returned { returned (code result) area.new out.new ≡ read_arrays sheet.now area.old out.old }
{
    if out.len() != 1 {
        sheet::read(sheet, &mut [])?;
        return Err(Refusal::WrongLength);
    }
    let count = sheet::read(sheet, area)?;
    out.copy_from_slice(&[count as u64]);
    Ok(())
}

#[tactic(auto, unfolding(crate::specs::SheetArrays::write_arrays))]
pub fn write(list: &[u64], sheet: &mut [u8], out: &mut [u64]) -> Result<(), Refusal>
    ensures told { IfErr result (λ refusal. place refusal ≤ doubles.length) }
    ensures returned { returned (code result) sheet.new out.new ≡ write_arrays list.now sheet.old out.old }
{
    if out.len() != 1 {
        return Err(too_many_or_4::<f64>(list));
    }
    let bytes = sheet::write(list, sheet)?;
    out.copy_from_slice(&[bytes as u64]);
    Ok(())
}

#[tactic(auto, unfolding(crate::specs::RescueArrays::rescue_arrays))]
pub fn rescue(
    damaged: &[u8],
    sheet: &mut [u8],
    marks: &mut [u8],
    report: &mut [u64],
) -> Result<(), Refusal>
    ensures told { IfErr result (λ refusal. place refusal ≤ doubles.length) }
    ensures returned { rescue_returned (code result) sheet.new marks.new report.new
        ≡ rescue_arrays damaged.now sheet.old marks.old report.old }
{
    if report.len() != 4 {
        rescue::rescue(damaged, &mut [], &mut [])?;
        return Err(Refusal::WrongLength);
    }
    let saved = rescue::rescue(damaged, sheet, marks)?;
    report.copy_from_slice(&[
        saved.written as u64,
        saved.taken as u64,
        saved.missing as u64,
        saved.over as u64,
    ]);
    Ok(())
}
