// A set of small numbers as the bits of one 64-bit number: rules WS2 and F9.
#![tactic(auto)]

ghost use Rattle.std.specs.Prelude.{◌≡◌, ◌≤◌, ◌<◌};
ghost use Rattle.lists.specs.Bitset.{has, without, full};

// Whether b is in the set.
pub fn has(set: u64, b: usize) -> bool
    requires { b < 64 }
    ensures { result ≡ has set b }
{
    (set >> b) & 1 == 1
}

// The set without b.
pub fn without(set: u64, b: usize) -> u64
    requires { b < 64 }
    ensures { result ≡ without set b }
{
    set & !(1u64 << b)
}

// The set of the numbers below count. Not of none: a shift by 64 is refused.
pub fn full(count: usize) -> u64
    requires { (1 ≤ count) × (count ≤ 64) }
    ensures { result ≡ full count }
{
    u64::MAX >> (64 - count)
}
