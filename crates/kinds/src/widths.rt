// binary64 and binary32, each as the trait asks. The operators and comparisons are the language's own.
ghost use Rattle.std.proofs.Common.{rules};
ghost use Rattle.kinds.specs.Limits.{doubles, singles};
ghost use Rattle.kinds.specs.Known.{is_doubles, is_singles};
ghost use Rattle.kinds.specs.ItselfLaws.{each_itself};

use crate::floating::Floating;
use crate::limits::{Doubles, Singles};

impl Floating for f64 {
    type Pattern = u64;

    ghost width = { doubles };

    ghost value = { λ x. x };

    ghost values = { λ xs. xs };

    ghost pattern = { λ p. p };

    ghost patterns = { λ ps. ps };

    const DIGITS: u32 = 52;

    ghost DIGITS = { 52 };

    const SIGN: u64 = crate::SIGN;

    ghost SIGN = { 0x8000000000000000 };

    const INFINITY: u64 = crate::INFINITY;

    ghost INFINITY = { 0x7FF0000000000000 };

    const LENGTH: usize = Doubles::LENGTH;

    ghost LENGTH = { 4094 };

    const MAGNITUDE: u64 = Doubles::MAGNITUDE;

    ghost MAGNITUDE = { 0x7E70000000000000 };

    const CARRIED: u64 = Doubles::CARRIED;

    ghost CARRIED = { 0x7F30000000000000 };

    const ROUNDS: u32 = Doubles::ROUNDS;

    ghost ROUNDS = { 50 };

    fn zero() -> f64 {
        0.0
    }

    fn held(self) {}

    fn bits(self) -> u64 {
        self.to_bits()
    }

    fn from_bits(p: u64) -> f64 {
        f64::from_bits(p)
    }

    fn unsigned(p: u64) -> u64 {
        p % crate::SIGN
    }

    fn larger(p: u64, q: u64) -> u64 {
        if p < q { q } else { p }
    }

    fn at_most(self, other: f64) -> bool {
        self <= other
    }

    fn word(p: u64) -> u64 {
        p
    }

    fn from_word(p: u64) -> u64 {
        p
    }

    ghost known = { is_doubles };

    ghost can_add_law = { Prim.search rules };

    ghost added = { Prim.search rules };

    ghost can_sub_law = { Prim.search rules };

    ghost subtracted = { Prim.search rules };

    ghost can_neg_law = { Prim.search rules };

    ghost negated = { Prim.search rules };

    ghost ordered = { Prim.search rules };

    ghost alike = { Prim.search rules };

    ghost small = { Prim.search rules };

    ghost each_value = { each_itself };

    ghost each_pattern = { each_itself };
}

impl Floating for f32 {
    type Pattern = u32;

    ghost width = { singles };

    ghost value = { λ x. x };

    ghost values = { λ xs. xs };

    ghost pattern = { λ p. p };

    ghost patterns = { λ ps. ps };

    const DIGITS: u32 = 23;

    ghost DIGITS = { 23 };

    const SIGN: u64 = 0x8000_0000;

    ghost SIGN = { 0x80000000 };

    const INFINITY: u64 = 0x7F80_0000;

    ghost INFINITY = { 0x7F800000 };

    const LENGTH: usize = Singles::LENGTH;

    ghost LENGTH = { 2046 };

    const MAGNITUDE: u64 = Singles::MAGNITUDE as u64;

    ghost MAGNITUDE = { 0x71800000 };

    const CARRIED: u64 = Singles::CARRIED as u64;

    ghost CARRIED = { 0x77000000 };

    const ROUNDS: u32 = Singles::ROUNDS;

    ghost ROUNDS = { 19 };

    fn zero() -> f32 {
        0.0
    }

    fn held(self) {}

    fn bits(self) -> u32 {
        self.to_bits()
    }

    fn from_bits(p: u32) -> f32 {
        f32::from_bits(p)
    }

    fn unsigned(p: u32) -> u32 {
        p % 0x8000_0000
    }

    fn larger(p: u32, q: u32) -> u32 {
        if p < q { q } else { p }
    }

    fn at_most(self, other: f32) -> bool {
        self <= other
    }

    fn word(p: u32) -> u64 {
        u64::from(p)
    }

    fn from_word(p: u64) -> u32 {
        p as u32
    }

    ghost known = { is_singles };

    ghost can_add_law = { Prim.search rules };

    ghost added = { Prim.search rules };

    ghost can_sub_law = { Prim.search rules };

    ghost subtracted = { Prim.search rules };

    ghost can_neg_law = { Prim.search rules };

    ghost negated = { Prim.search rules };

    ghost ordered = { Prim.search rules };

    ghost alike = { Prim.search rules };

    ghost small = { Prim.search rules };

    ghost each_value = { each_itself };

    ghost each_pattern = { each_itself };
}
