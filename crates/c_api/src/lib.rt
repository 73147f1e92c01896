// The C functions, on slices and numbers: the entries, the lowest refusal of a plan, and the writers of numbers, literals and quoted texts.
// A slice passes as a pointer and a length. The static library is `libc_api.a`.
#![tactic(auto)]

pub mod entries;
pub mod leaves;
pub mod refused;
