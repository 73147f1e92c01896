// What the writing functions share: the sets of marks, and the count of odd literals.
#![tactic(auto)]

pub mod odd;
pub mod stablemapset;
