// The types that the library's calls share: what describes a list, a width of float, the walk's state and its answer, and why a call refuses.
#![tactic(auto)]

pub use crate::floating::Floating;
pub use crate::limits::{BLOCK, Doubles, Limits, Singles, blocks, exponent};
pub use crate::refusal::{Fault, Refusal};
pub use crate::state::{State, Step};

mod floating;
mod limits;
mod refusal;
mod state;
mod widths;

// What the sign adds to a double's pattern. Patterns without it are in the order of their magnitudes.
pub const SIGN: u64 = 0x8000_0000_0000_0000;

// The pattern of the infinity. From it on, a pattern without its sign stands for no number.
pub const INFINITY: u64 = 0x7FF0_0000_0000_0000;

// How many digits of a significand a double's pattern stores; its field stands above them.
pub const DIGITS: u32 = 52;

// The pattern of 2^-1022, the least normal double: a field of 1 over no digit. So it is the weight of a field, and of the leading digit that a pattern does
// not store.
pub const LEAST_NORMAL: u64 = 1 << DIGITS;
