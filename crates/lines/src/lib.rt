// What the sheet program prints: the lines of a sheet, made in a lent area.
#![tactic(auto)]

use kinds::Refusal;
use numerals::Text;
use walk::Sum;

mod line;

ghost use Rattle.std.specs.Prelude.{◌≡◌, ◌+◌, ◌≤◌, length};
ghost use Rattle.kinds.specs.Limits.{doubles};
ghost use Rattle.walk.specs.Walk.{faithful_of};
ghost use Rattle.numerals.specs.Put.{Put};
ghost use Rattle.lines.specs.Told.{Told};
ghost use Rattle.lines.specs.Lines.{list_lines, printed, lines_of, longest};

// The three lines of a list that is accepted.
fn accepted(list: &[u64], work: &mut [f64], text: &mut Text) -> Result<(), Refusal>
    requires { (length list.now ≤ doubles.length) × (text.old.end + longest ≤ length text.old.area.now) }
    ensures left { work.new ≡ (faithful_of doubles list.now work.old).area }
    ensures lines { Told (list_lines list.now work.old) result text.old text.new }
{
    let Sum { sum, rounds } = walk::faithful::<f64>(list, work)?;
    let near = sums::nearest::<f64>(list)?;
    line::three(text, list.len(), sum.to_bits(), rounds, near.to_bits());
    Ok(())
}

// Of a list: its three lines, or the line of its refusal.
fn summed(list: &[u64], work: &mut [f64], text: &mut Text)
    requires { (length list.now ≤ doubles.length) × (text.old.end + longest ≤ length text.old.area.now) }
    ensures left { work.new ≡ (faithful_of doubles list.now work.old).area }
    ensures lines { Put (list_lines list.now work.old) text.old text.new }
{
    if let Err(refusal) = accepted(list, work, text) {
        line::refused(text, refusal);
    }
}

// How many bytes the longest lines have: those of 4,094 numbers, and of a walk of two digits of rounds.
pub const LONGEST: usize = 72;

// Reads a sheet into `numbers`, sums what was read, and puts the lines at the start of `text`; answers how many bytes they are. The walk takes as many places
// of `work` as there are numbers.
pub fn lines(sheet: &[u8], numbers: &mut [u64], work: &mut [f64], text: &mut [u8]) -> usize
    requires { (doubles.length ≤ length work.old) × (longest ≤ length text.old) }
    ensures { printed result numbers.new work.new text.new
        ≡ lines_of sheet.now numbers.old work.old text.old }
{
    let mut out = Text::new(text);
    match sheet::read(sheet, numbers) {
        Ok(n) => summed(&numbers[0..n], &mut work[0..n], &mut out),
        Err(refusal) => line::refused(&mut out, refusal),
    }
    out.end
}
