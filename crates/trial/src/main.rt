// The program of tests: the sums of lists made by a generator, a line for each answer. tests/trial.py has the lines that exact integers ask for.
#![tactic(auto)]

use kinds::Doubles;

mod drawn;
mod text;
mod ways;

// A list of n numbers of every magnitude, and then with all but the middle cancelling.
fn length(list: &mut [u64], work: &mut [f64], n: usize) {
    if n <= list.len() && n <= work.len() {
        let list = &mut list[..n];
        let work = &mut work[..n];
        drawn::fill(list, Doubles::MAGNITUDE, drawn::START ^ (n as u64));
        ways::all(list, work);
        drawn::cancel(list);
        ways::all(list, work);
    }
}

// A list that takes 51 rounds, the most; no shorter one does.
fn ladder(list: &mut [u64], work: &mut [f64]) {
    drawn::ladder(list);
    ways::all(list, work);
}

fn all(list: &mut [u64], work: &mut [f64]) {
    for n in [64, 65, Doubles::LENGTH, Doubles::LENGTH + 1] {
        length(list, work, n);
    }
    if 2047 <= list.len() && 2047 <= work.len() {
        ladder(&mut list[..2047], &mut work[..2047]);
    }
}

fn main() {
    let mut list = [0u64; Doubles::LENGTH + 1];
    let mut work = [1.5f64; Doubles::LENGTH + 1];
    all(&mut list, &mut work);
}
