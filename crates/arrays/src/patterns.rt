// A float's pattern as a word.
ghost use Rattle.std.specs.Prelude.{◌≡◌};
ghost use Rattle.std.specs.Float.Ieee.{to_bits};

use kinds::Floating;
use std::num::{f32_to_bits_with_nan, f64_to_bits_with_nan};

// Of any float. The language takes no bits of a NaN; its library tells that one by itself, as its account of IEEE 754 has it.
pub trait Patterned: Floating {
    fn pattern(self) -> u64
        ensures { result ≡ to_bits Self.width.format (Self.value self) };
}

impl Patterned for f64 {
    fn pattern(self) -> u64 {
        f64_to_bits_with_nan(self)
    }
}

impl Patterned for f32 {
    fn pattern(self) -> u64 {
        u64::from(f32_to_bits_with_nan(self))
    }
}
