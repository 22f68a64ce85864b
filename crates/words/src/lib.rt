// The register's words, and their sums word by word.
#![tactic(auto)]

pub mod columns;
pub mod ripple;
mod way;
pub mod word;

// Rule L11.
pub const WORDS: usize = 33;

// The top digit of a word. That of the highest word is set where the register is negative.
pub const TOP: u64 = 0x8000_0000_0000_0000;
