// What can be saved of a damaged sheet: rules H7 to H11. What is saved is a good sheet (rule H12).
#![tactic(auto)]

use crate::entries::{count_kept, write_kept, write_marks};
use kinds::{Doubles, Refusal};
use sheet::layout::header;
use sheet::{HEADER, PATTERN, VERSION, read_header};

mod entries;

ghost use Rattle.std.specs.Prelude.{◌≡◌, ◌-◌, ◌/◌, ◌≤◌, min};
ghost use Rattle.kinds.specs.Limits.{doubles};
ghost use Rattle.rescue.specs.Rescue.{rescuing, rescued_of};
ghost use Rattle.rescue.specs.Rescued.{as_rescued};

// Rule H10.
#[derive(Drop)]
pub struct Report {
    pub written: usize,
    pub taken: usize,
    pub missing: usize,
    pub over: usize,
}

// Rule H7: how many entries are there whole in so many bytes, at most the count.
fn taken_of(bytes: usize, count: usize) -> usize
    requires { 5 ≤ bytes }
    ensures { result ≡ min count ((bytes - 5) / 8) }
{
    let whole = (bytes - HEADER) / PATTERN;
    whole.min(count)
}

// Rule O11. The kept entries are counted before a byte is written, since 4 has to leave both areas. A count above the limit is refused, however few entries
// are there.
pub fn rescue(damaged: &[u8], sheet: &mut [u8], marks: &mut [u8]) -> Result<Report, Refusal>
    ensures { rescuing (as_rescued result) sheet.new marks.new ≡ rescued_of doubles damaged.now sheet.old marks.old }
{
    if damaged.len() < HEADER {
        return Err(Refusal::SheetTooShort);
    }
    let h = read_header(damaged);
    if h.version != VERSION {
        return Err(Refusal::OtherVersion);
    }
    let count = h.count;
    if Doubles::LENGTH < count {
        return Err(Refusal::TooMany);
    }
    let taken = taken_of(damaged.len(), count);
    let kept = count_kept(damaged, taken);
    let written = HEADER + PATTERN * kept;
    if sheet.len() < written {
        return Err(Refusal::WrongLength);
    }
    if marks.len() < taken {
        return Err(Refusal::WrongLength);
    }
    header(sheet, kept);
    write_kept(damaged, taken, sheet);
    write_marks(damaged, taken, marks);
    let missing = count - taken;
    let over = damaged.len() - HEADER - PATTERN * taken;
    Ok(Report {
        written,
        taken,
        missing,
        over,
    })
}
