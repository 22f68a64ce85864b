// The parts of what a register's words hold.
ghost use Rattle.std.specs.Prelude.{◌≡◌, ◌<◌, nat_abs, length};
ghost use Rattle.ieee.specs.Units.{limit};
ghost use Rattle.kinds.specs.Limits.{doubles};
ghost use Rattle.words.specs.Words.{word_count, whole_of};
ghost use Rattle.sums.specs.Sums.{parts};
ghost use Rattle.sums.specs.PartsLaws.{remaining};

// Fills the area: each part is nearest to what the words hold, and is taken out of them. A zero first part has the sign `zero`, the others +0.
// Below the limit each nearest double is finite, so that it can be withdrawn.
pub fn split(words: &mut [u64], area: &mut [f64], zero: bool)
    requires { (length words.old ≡ word_count) × (nat_abs (whole_of words.old) < limit doubles.format) }
    ensures filled { area.new ≡ parts doubles.format (length area.old) zero (whole_of words.old) }
    ensures left { whole_of words.new ≡ remaining doubles.format (length area.old) zero (whole_of words.old) }
{
    let mut sign = zero;
    for place in area.iter_mut() {
        let part: f64 = nearest::nearest_float(words, sign);
        *place = part;
        addend::withdraw(words, part.to_bits());
        sign = false;
    }
}
