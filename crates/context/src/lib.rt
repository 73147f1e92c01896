// What is written around the rows of a block, and what changes as they are written: `BodyContext` of codegen.rs 82.
#![tactic(auto)]

pub mod block;
pub mod body_context;
pub mod by_value;
pub mod lent;
