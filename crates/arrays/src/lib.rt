// What all C calls on the caller's own arrays share: nothing is copied but the values.
#![tactic(auto)]

pub mod lengths;
pub mod patterns;
pub mod values;
