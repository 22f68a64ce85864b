// The contribution sheet: its reader, rule H2, and its writer, rule H4.
#![tactic(auto)]

use kinds::{Doubles, Refusal};
use octets::big_endian;

pub mod layout;

ghost use Rattle.std.specs.Prelude.{◌≡◌, ◌++◌, ◌+◌, ◌*◌, ◌≤◌, length, drop};
ghost use Rattle.kinds.specs.Limits.{doubles};
ghost use Rattle.kinds.specs.Answers.{as_sheet};
ghost use Rattle.kinds.specs.Outcome.{outcome};
ghost use Rattle.sheet.specs.Sheet.{version_of, count_of, patterns_of, read_of};
ghost use Rattle.sheet.specs.Write.{written_of};
ghost use Rattle.sheet.specs.Written.{as_written};

// rule H1: the first byte
pub const VERSION: u8 = 1;

// the version, and 4 bytes of count
pub const HEADER: usize = 5;

// the bytes of a pattern
pub const PATTERN: usize = 8;

// What stands before the patterns.
#[derive(Drop)]
pub struct Header {
    pub version: u8,
    pub count: usize,
}

// The count is what the bytes say, up to 2^32 - 1: nothing is refused here.
pub fn read_header(sheet: &[u8]) -> Header
    requires { 5 ≤ length sheet.now }
    ensures { (result.version ≡ version_of sheet.now) × (result.count ≡ count_of sheet.now) }
{
    let version = sheet[0];
    let count = big_endian(sheet, 1, 4) as usize;
    Header { version, count }
}

// The first n patterns of a sheet to the first n places of the area; rule H3: no other place.
fn copy(sheet: &[u8], area: &mut [u64], n: usize)
    requires { (5 + 8 * n ≤ length sheet.now) × (n ≤ length area.old) }
    ensures { area.new ≡ patterns_of n (drop 5 sheet.now) ++ drop n area.old }
{
    for i in 0..n {
        area[i] = big_endian(sheet, HEADER + PATTERN * i, PATTERN);
    }
}

// Rule O5. A count above the limit is refused before it is multiplied.
pub fn read(sheet: &[u8], area: &mut [u64]) -> Result<usize, Refusal>
    ensures { outcome (as_sheet result) area.new ≡ read_of doubles sheet.now area.old }
{
    if sheet.len() < HEADER {
        return Err(Refusal::SheetTooShort);
    }
    let h = read_header(sheet);
    if h.version != VERSION {
        return Err(Refusal::OtherVersion);
    }
    let n = h.count;
    if Doubles::LENGTH < n {
        return Err(Refusal::TooMany);
    }
    let size = HEADER + PATTERN * n;
    if sheet.len() < size {
        return Err(Refusal::SheetTooShort);
    }
    if size < sheet.len() {
        return Err(Refusal::SheetTooLong);
    }
    if area.len() < n {
        return Err(Refusal::WrongLength);
    }
    copy(sheet, area, n);
    Ok(n)
}

// Rule O8. For rule H6 patterns stay whole numbers on the way: of a double made of one a NaN's payload could not be told again.
pub fn write(list: &[u64], sheet: &mut [u8]) -> Result<usize, Refusal>
    ensures { outcome (as_written result) sheet.new ≡ written_of doubles list.now sheet.old }
{
    if Doubles::LENGTH < list.len() {
        return Err(Refusal::TooMany);
    }
    let bytes = HEADER + PATTERN * list.len();
    if sheet.len() < bytes {
        return Err(Refusal::WrongLength);
    }
    layout::header(sheet, list.len());
    layout::patterns(list, sheet);
    Ok(bytes)
}
