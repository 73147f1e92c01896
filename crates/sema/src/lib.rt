// Types, fields, terms and their signatures, as codegen.rs asks sema.rs for them, over the decoded tables.
// What a contract says, it says of the environment that the plan has (view::specs::Buffers::env_of).
#![tactic(auto)]

pub mod fields;
pub mod signature;
pub mod texts;
pub mod types;
