// The ways to sum a list: nearest, and the faithful walk in one call and block by block in three orders.
use crate::{drawn, text};
use kinds::{Refusal, Step};

// What a walk answers.
type Answer = Result<Step<f64>, Refusal>;

// The ensemble that the walks by blocks are opened for.
const ENSEMBLE: u32 = 0xDEAD_BEEF;

// More steps than any walk has: 51 rounds of 64 blocks.
const STEPS: u64 = 3264;

fn lowest(pending: u64) -> usize {
    pending.trailing_zeros() as usize
}

fn highest(pending: u64) -> usize {
    63u32.wrapping_sub(pending.leading_zeros()) as usize
}

// The first pending block at or above the turn's place; where none is, the lowest.
fn seeded(pending: u64, turn: u64) -> usize {
    let start = (turn % 64) as u32;
    let above = (pending >> start) << start;
    lowest(if above == 0 { pending } else { above })
}

// The walk block by block to its end, each time the block that is chosen of the pending ones and the turn; and how many steps it took.
fn run<F: Fn(u64, u64) -> usize>(list: &[u64], work: &mut [f64], choose: F) -> (Answer, u64)
    requires { F.IsAlwaysCallable choose }
{
    let mut at = walk::open::<f64>(list, work, ENSEMBLE);
    let mut turn = drawn::START;
    for steps in 0..STEPS {
        let Ok(Step::More(s, _)) = at else {
            return (at, steps);
        };
        turn = drawn::following(turn);
        at = walk::step(s, work, choose(s.pending, turn), ENSEMBLE);
    }
    (at, STEPS)
}

// A number that changes with every bit of the work area.
fn mix(work: &[f64]) -> u64 {
    let mut m = drawn::START;
    for x in work {
        m = drawn::following(m ^ text::bits(*x));
    }
    m
}

// An answer, and what it leaves in the work area: after a refusal what was there.
fn told(answer: Answer, work: &[f64]) {
    match answer {
        Ok(Step::More(_, _)) => text::put(b" more"),
        Ok(Step::Done(x, rounds)) => {
            text::pattern(b" ", text::bits(x));
            text::named(b" rounds ", u64::from(rounds));
        }
        Err(refusal) => text::refused(refusal),
    }
    text::pattern(b" work ", mix(work));
    text::put(b"\n");
}

fn nearest(list: &[u64]) {
    match sums::nearest::<f64>(list) {
        Ok(x) => text::pattern(b" ", text::bits(x)),
        Err(refusal) => text::refused(refusal),
    }
    text::put(b"\n");
}

fn by_blocks<F: Fn(u64, u64) -> usize>(name: &[u8], list: &[u64], work: &mut [f64], choose: F)
    requires { F.IsAlwaysCallable choose }
{
    text::put(name);
    let (answer, steps) = run(list, work, choose);
    text::named(b" steps ", steps);
    told(answer, work);
}

// A line for each way.
pub fn all(list: &[u64], work: &mut [f64]) {
    text::named(b"list of ", list.len() as u64);
    text::put(b" nearest");
    nearest(list);
    text::put(b"undivided");
    let answer = walk::faithful::<f64>(list, work);
    told(answer.map(|end| Step::Done(end.sum, end.rounds)), work);
    by_blocks(b"rising", list, work, |pending, _| lowest(pending));
    by_blocks(b"falling", list, work, |pending, _| highest(pending));
    by_blocks(b"seeded", list, work, seeded);
}
