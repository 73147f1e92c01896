// The generated terms: codegen.rs 517, `generate_internal_term_constructors`.
#![tactic(auto)]

pub mod block;
pub mod options;
pub mod term;
