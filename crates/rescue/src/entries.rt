// The first n entries of a damaged sheet: how many are kept, and what is written of them.
ghost use Rattle.std.specs.Prelude.{◌≡◌, ◌++◌, map, ◌+◌, ◌*◌, ◌≤◌, length, take, drop};
ghost use Rattle.kinds.specs.Limits.{doubles};
ghost use Rattle.sheet.specs.Sheet.{body, patterns_of};
ghost use Rattle.rescue.specs.Rescue.{kept_of, mark_of};

use judge::fault;
use kinds::Fault;
use octets::{big_endian, write_big_endian};
use sheet::{HEADER, PATTERN};

// Rule H8: how many have no fault.
pub fn count_kept(damaged: &[u8], n: usize) -> usize
    requires { 5 + 8 * n ≤ length damaged.now }
    ensures { result ≡ length (kept_of doubles (patterns_of n (drop 5 damaged.now))) }
{
    let mut kept = 0;
    for i in 0..n {
        if fault::<f64>(big_endian(damaged, HEADER + PATTERN * i, PATTERN)).is_none() {
            kept += 1;
        }
    }
    kept
}

// Those without a fault, 8 bytes each and in the same order, behind a header's 5.
pub fn write_kept(damaged: &[u8], n: usize, sheet: &mut [u8])
    requires { (5 + 8 * n ≤ length damaged.now) × (5 + 8 * length (kept_of doubles (patterns_of n (drop 5 damaged.now))) ≤ length sheet.old) }
    ensures { sheet.new
        ≡ take 5 sheet.old
        ++ (body (kept_of doubles (patterns_of n (drop 5 damaged.now)))
        ++ drop (5 + 8 * length (kept_of doubles (patterns_of n (drop 5 damaged.now)))) sheet.old) }
{
    let mut kept = 0;
    for i in 0..n {
        let p = big_endian(damaged, HEADER + PATTERN * i, PATTERN);
        if fault::<f64>(p).is_none() {
            write_big_endian(sheet, HEADER + PATTERN * kept, PATTERN, p);
            kept += 1;
        }
    }
}

// Rule H9.
fn mark(p: u64) -> u8
    ensures { result ≡ mark_of doubles p }
{
    match fault::<f64>(p) {
        None => 0,
        Some(Fault::NotFinite) => 1,
        Some(Fault::TooLarge) => 2,
    }
}

// A mark for each, kept or dropped.
pub fn write_marks(damaged: &[u8], n: usize, marks: &mut [u8])
    requires { (5 + 8 * n ≤ length damaged.now) × (n ≤ length marks.old) }
    ensures { marks.new ≡ map (mark_of doubles) (patterns_of n (drop 5 damaged.now)) ++ drop n marks.old }
{
    for i in 0..n {
        marks[i] = mark(big_endian(damaged, HEADER + PATTERN * i, PATTERN));
    }
}
