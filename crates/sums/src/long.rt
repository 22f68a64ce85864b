// The exact sum of a long list: its positive and its negative numbers in lanes of their own, where nothing carries while numbers come, and one settling.
ghost use Rattle.std.specs.Prelude.{◌≡◌, ◌+◌, ◌≤◌, T, length};
ghost use Rattle.std.specs.Float.Ieee.{of_bits};
ghost use Rattle.std.specs.Float.Ieee.Scale.{finite};
ghost use Rattle.kinds.specs.Limits.{doubles};
ghost use Rattle.judge.specs.Table.{Allowed};
ghost use Rattle.words.specs.Words.{word_count, words_of};
ghost use Rattle.sums.specs.Sums.{sum_of};
ghost use Rattle.sums.specs.SignLanes.{Lanes, Empty, Room, Put, Gathered};

use crate::lane::{SIDE, lane};
use crate::settle::settle;

// The lanes of both signs.
const LANES: usize = 2 * SIDE;

// Adds a number to its lane. Lanes that 4,093 numbers may have left take one more.
fn put(low: &mut [u64], above: &mut [u64], p: u64)
    requires { Lanes low.old above.old × Room 4093 low.old above.old × T (finite (of_bits doubles.format p)) }
    ensures { Put p low.old above.old low.new above.new }
{
    let at = lane(p);
    let k = at.lane;
    low[k] += at.low;
    above[k] += at.above;
}

// Adds every number of an allowed list to empty lanes.
fn gather(list: &[u64], low: &mut [u64], above: &mut [u64])
    requires { Lanes low.old above.old × Empty low.old above.old × Allowed doubles list.now × (length list.now ≤ doubles.length) }
    ensures { Gathered list.now low.new above.new }
{
    for &p in list {
        put(low, above, p);
    }
}

// The words of an allowed list's sum.
pub fn total(list: &[u64], words: &mut [u64])
    requires { (length words.old ≡ word_count) × Allowed doubles list.now × (length list.now ≤ doubles.length) }
    ensures { words.new ≡ words_of (sum_of doubles.format list.now) }
{
    let mut low = [0u64; LANES];
    let mut above = [0u64; LANES];
    gather(list, &mut low, &mut above);
    settle(&low, &above, words);
}
