// The two ways that a number goes to words: it is added, or it is taken away. A difference is a sum read backwards, so that one proof serves both.
ghost use Rattle.std.specs.Prelude.{◌≤◌, Bool, true, false};
ghost use Rattle.words.specs.Words.{word_bits};
ghost use Rattle.words.specs.Ways.{Stepped};

use super::word::{Sum, add_word, sub_word};

pub trait Way {
    ghost adds: { Bool };

    // One word, b and the carry or borrow that comes in: what is left of it, and what goes on to the next word.
    fn step(a: u64, b: u64, carry: u64) -> Sum
        requires { carry ≤ 1 }
        ensures { Stepped adds word_bits a b carry result.word result.carry };
}

pub struct Adding;

impl Way for Adding {
    ghost adds = { true };

    fn step(a: u64, b: u64, carry: u64) -> Sum {
        add_word(a, b, carry)
    }
}

pub struct Taking;

impl Way for Taking {
    ghost adds = { false };

    fn step(a: u64, b: u64, carry: u64) -> Sum {
        sub_word(a, b, carry)
    }
}
