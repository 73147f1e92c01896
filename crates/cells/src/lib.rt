// The cells of a row, from a text into words: a value, and a list of values.
#![tactic(auto)]

pub mod lists;
pub mod values;
