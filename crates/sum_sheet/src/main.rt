// Reads one contribution sheet from standard input and prints its sums, or why it is refused.
#![tactic(auto)]

use kinds::Doubles;
use lines::LONGEST;

// Rules P1 and F2: one byte more than the longest sheet has, so that a longer one is seen to be longer.
const SHEET: usize = 32758;

// What the system calls standard input and standard output.
const INPUT: i32 = 0;

const OUTPUT: i32 = 1;

fn main() {
    let mut sheet = [0u8; SHEET];
    let mut numbers = [0u64; Doubles::LENGTH];
    let mut work = [0.0f64; Doubles::LENGTH];
    let mut text = [0u8; LONGEST];
    let n = io::read_full(INPUT, &mut sheet);
    let length = lines::lines(&sheet[0..n], &mut numbers, &mut work, &mut text);
    io::write_all(OUTPUT, &text[0..length]);
}
