// The rows of a block, one after the other, with a stack of open frames: codegen.rs 672, `emit_block_contents`.
#![tactic(auto)]

pub mod row;
pub mod walk;
