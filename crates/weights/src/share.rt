// What the clocks that stay gain: their shares, and the left over a grain at a time. The callers know a weight list, so that nothing is ever above 1.
ghost use Rattle.std.specs.Prelude.{◌≡◌, map, ◌≤◌, ◌<◌, length, get_or};
ghost use Rattle.kinds.specs.Limits.{doubles};
ghost use Rattle.weights.specs.Weights.{grains, pattern_for, total, share, staying, gets, spread, weights_of};
ghost use Rattle.weights.specs.Table.{Weighed};

use crate::grains::{GRAINS, grains_of, pattern};

// The weight at place i of those who stay: the leaver has none.
fn weight_at(list: &[u64], leaver: usize, i: usize) -> u64
    requires { (i < length list.now) × Weighed doubles list.now (length list.now) }
    ensures { (result ≡ get_or (staying leaver (weights_of doubles list.now)) i 0) × (result ≤ grains) }
{
    if i == leaver {
        return 0;
    }
    grains_of(list[i])
}

// Rule V3. Not all of 1 leaves, so that nothing is divided by zero, and 60 bits hold the product.
fn share(w: u64, k: u64) -> u64
    requires { (w < grains) × (k ≤ grains) }
    ensures { result ≡ share w k }
{
    w * k / (GRAINS - w)
}

// Rule V4: what a clock of k grains gets where so many are left.
fn gets(left: u64, k: u64) -> u64
    ensures { result ≡ gets left k }
{
    u64::from((0 < left) & (0 < k))
}

// The shares of all: not more than the leaver had, which the callers know.
pub fn shares(list: &[u64], leaver: usize, w: u64) -> u64
    requires { (w < grains) × Weighed doubles list.now (length list.now) × (total (map (share w) (staying leaver (weights_of doubles list.now))) ≤ w) }
    ensures { result ≡ total (map (share w) (staying leaver (weights_of doubles list.now))) }
{
    let mut sum = 0;
    for i in 0..list.len() {
        sum += share(w, weight_at(list, leaver, i));
    }
    sum
}

// Rules V3 to V5: every place is written once, the lowest first.
pub fn write(list: &[u64], leaver: usize, w: u64, left: u64, out: &mut [u64])
    requires { (w < grains) × Weighed doubles list.now (length list.now) × (length out.old ≡ length list.now)
        × (total (spread w left (staying leaver (weights_of doubles list.now))) ≤ grains) }
    ensures { out.new ≡ map (pattern_for doubles) (spread w left (staying leaver (weights_of doubles list.now))) }
{
    let mut rest = left;
    for i in 0..list.len() {
        let k = weight_at(list, leaver, i);
        let g = gets(rest, k);
        out[i] = pattern(k + share(w, k) + g);
        rest -= g;
    }
}
