// Lanes by sign to words: two lanes of either side make a word, and the negative side's is taken from the positive one's.
ghost use Rattle.std.specs.Prelude.{◌≡◌, ◌+◌, ◌*◌, ◌^◌, ◌≤◌, ◌<◌, length};
ghost use Rattle.lists.specs.Digits.{number};
ghost use Rattle.words.specs.Words.{word_bits, word_count, register_bits, words_of};
ghost use Rattle.units.specs.Whole.{int};
ghost use Rattle.sums.specs.SignLanes.{side_lanes, most_carry, Lanes, Room, lane_sides, Paired};

use crate::lane::{BASE, SIDE};
use words::word::{Sum, sub_word};

// The place of the top word, above all lanes.
const TOP: usize = SIDE / 2;

// The word of the lanes k and k + 1 and what is carried into them, and what they carry on: all far from the end of 64 bits, where the lanes have room.
fn pair(low: &[u64], above: &[u64], k: usize, carry: u64) -> Sum
    requires { Lanes low.now above.now × Room 4094 low.now above.now × (k + 1 < side_lanes + side_lanes) × (carry ≤ most_carry) }
    ensures { Paired low.now above.now k carry result.word result.carry }
{
    let sum = low[k] + carry;
    let next = low[k + 1] + (sum / BASE + above[k]);
    Sum {
        word: sum % BASE + next % BASE * BASE,
        carry: next / BASE + above[k + 1],
    }
}

// Writes the words of the difference of the two sides, and answers the borrow out of the top.
fn subtract(low: &[u64], above: &[u64], words: &mut [u64]) -> u64
    requires { Lanes low.now above.now × Room 4094 low.now above.now × (length words.old ≡ word_count) }
    ensures { (lane_sides low.now above.now).up + result * 2 ^ register_bits
        ≡ number word_bits words.new + (lane_sides low.now above.now).dn }
{
    let mut plus = 0;
    let mut minus = 0;
    let mut borrow = 0;
    for i in 0..TOP {
        let up = pair(low, above, 2 * i, plus);
        let down = pair(low, above, SIDE + 2 * i, minus);
        let left = sub_word(up.word, down.word, borrow);
        words[i] = left.word;
        plus = up.carry;
        minus = down.carry;
        borrow = left.carry;
    }
    let left = sub_word(plus, minus, borrow);
    words[TOP] = left.word;
    left.carry
}

// The same, cut off at 2112 bits. The areas have their lengths, and the lanes what 4,094 numbers may leave.
pub fn settle(low: &[u64], above: &[u64], words: &mut [u64])
    requires { Lanes low.now above.now × Room 4094 low.now above.now × (length words.old ≡ word_count) }
    ensures { words.new ≡ words_of (int (lane_sides low.now above.now)) }
{
    subtract(low, above, words);
}
