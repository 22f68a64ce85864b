// The lists that are summed. tests/trial.py makes the same ones.
use kinds::SIGN;

// Where the generator begins.
pub const START: u64 = 0x9E37_79B9_7F4A_7C15;

// xorshift64.
pub fn following(r: u64) -> u64 {
    let a = r ^ (r << 13);
    let b = a ^ (a >> 7);
    b ^ (b << 17)
}

// Numbers of both signs and of magnitudes up to `most`, one for each turn after r.
pub fn fill(list: &mut [u64], most: u64, r: u64) {
    let mut turn = r;
    for x in list {
        turn = following(turn);
        *x = (turn << 63) | (turn >> 1) % (most % SIGN + 1);
    }
}

// Makes the last numbers the first ones backwards with the other sign. Two or three in the middle stay.
pub fn cancel(list: &mut [u64]) {
    let few = (list.len() / 2).saturating_sub(1);
    let (front, rest) = list.split_at_mut(few);
    for (x, y) in front.iter().zip(rest.iter_mut().rev()) {
        *y = *x ^ SIGN;
    }
}

// Pairs of powers of two that cancel, from 2^1000 down, each halved 41 times from the last; behind 51 pairs one unit.
fn rung(i: u64) -> u64 {
    if 102 <= i {
        return 1;
    }
    let halvings = i / 2 * 41;
    let power = if halvings < 2023 {
        (2023 - halvings) << 52
    } else {
        1 << ((2074 - halvings) as u32)
    };
    power | (i << 63)
}

fn rungs(list: &mut [u64]) {
    for (i, x) in list.iter_mut().enumerate() {
        *x = rung(i as u64);
    }
}

// The rungs, each 41 digits below the last, which is what a round takes of 2,047 numbers; then zeros of both signs.
pub fn ladder(list: &mut [u64]) {
    fill(list, 0, 41);
    if 103 <= list.len() {
        rungs(&mut list[0..103]);
    }
}
