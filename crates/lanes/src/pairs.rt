// Words of 64 bits from lanes of 32, two by two.
ghost use Rattle.std.specs.Prelude.{◌≡◌, map, ◌+◌, ◌*◌, ◌^◌, length};
ghost use Rattle.words.specs.Words.{word_count};
ghost use Rattle.lanes.specs.Lanes.{lane_count, lane_bits};
ghost use Rattle.lanes.specs.Settle.{lane_digit, pairs};

use crate::Lanes;
use crate::lane::digit;
use words::WORDS;

// The digits of two lanes, side by side.
pub fn word(low: i64, high: i64) -> u64
    ensures { result ≡ lane_digit low + lane_digit high * 2 ^ lane_bits }
{
    digit(low) + (digit(high) << Lanes::BITS)
}

// Writes the words of all lanes. Both areas have their lengths.
pub fn write(lanes: &[i64], words: &mut [u64])
    requires { (length lanes.now ≡ lane_count) × (length words.old ≡ word_count) }
    ensures { words.new ≡ pairs (map lane_digit lanes.now) }
{
    for (i, pair) in words.iter_mut().enumerate() {
        *pair = word(lanes[2 * i], lanes[2 * i + 1]);
    }
}
