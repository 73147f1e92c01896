// The builtin types, and the literals and quoted texts that are written for their values.
// From sema.rs (`BuiltinType`, `IntType`) and codegen.rs (`emit_int`, `rust_int_literal`).
#![tactic(auto)]

pub mod builtin_type;
pub mod literal;
pub mod quote;
