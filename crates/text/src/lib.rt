// Texts put into a lent buffer, or only measured: bytes, runs of spaces and numbers.
#![tactic(auto)]

pub mod decimal;
mod digits;
pub mod number;
pub mod sink;
