// The lines, each put behind a text.
ghost use Rattle.std.specs.Prelude.{◌≡◌, ◌++◌, suc, ◌+◌, ◌≤◌, length};
ghost use Rattle.kinds.specs.Limits.{doubles};
ghost use Rattle.kinds.specs.Heard.{place_of};
ghost use Rattle.kinds.specs.Refusals.{number, place};
ghost use Rattle.numerals.specs.Put.{Put};
ghost use Rattle.numerals.specs.Numerals.{decimal_of};
ghost use Rattle.lines.specs.Lines.{count_line, faithful_line, nearest_line, refused_line, longest};

use kinds::Refusal;
use numerals::Text;

// `count 3`
pub fn count(text: &mut Text, n: usize)
    requires { text.old.end + 7 + length (decimal_of n) ≤ length text.old.area.now }
    ensures { Put (count_line n) text.old text.new }
{
    text.decimal(b"count ", n as u64).put(b"\n");
}

// `faithful 3FF0000000000000 rounds 2`
pub fn faithful(text: &mut Text, p: u64, rounds: u32)
    requires { text.old.end + 34 + length (decimal_of rounds) ≤ length text.old.area.now }
    ensures { Put (faithful_line p rounds) text.old text.new }
{
    text.pattern(b"faithful ", p)
        .decimal(b" rounds ", u64::from(rounds))
        .put(b"\n");
}

// `nearest 3FF0000000000000`
pub fn nearest(text: &mut Text, p: u64)
    requires { text.old.end + 25 ≤ length text.old.area.now }
    ensures { Put (nearest_line p) text.old text.new }
{
    text.pattern(b"nearest ", p).put(b"\n");
}

// The three lines of a list that was summed.
pub fn three(text: &mut Text, n: usize, sum: u64, rounds: u32, near: u64)
    requires { (n ≤ doubles.length) × (rounds ≤ suc doubles.rounds) × (text.old.end + longest ≤ length text.old.area.now) }
    ensures { Put (count_line n ++ faithful_line sum rounds ++ nearest_line near) text.old text.new }
{
    count(text, n);
    faithful(text, sum, rounds);
    nearest(text, near);
}

// `refused 3 at 1` or `refused 11`
pub fn refused(text: &mut Text, refusal: Refusal)
    requires { text.old.end + longest ≤ length text.old.area.now }
    ensures { Put (refused_line (number refusal) (place_of (number refusal) (place refusal))) text.old text.new }
{
    let numbered = text.decimal(b"refused ", u64::from(refusal.number()));
    match refusal.place() {
        Some(place) => numbered.decimal(b" at ", u64::from(place)).put(b"\n"),
        None => numbered.put(b"\n"),
    };
}
