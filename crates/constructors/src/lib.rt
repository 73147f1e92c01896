// The lines around the block of a generated term: codegen.rs 517, `generate_internal_term_constructors`, without the blocks.
#![tactic(auto)]

pub mod arguments;
pub mod ending;
pub mod signature;
