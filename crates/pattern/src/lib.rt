// Patterns: codegen.rs 1077, `emit_constraint`, and 1136, `emit_fields`. The bindings of a pattern are the list of an arm's row.
// The marks are slices of any length, which a set with 1,024 would narrow. `plan`, `refs` and `depth` stay apart: one value of them would be
// lent to be written, for the marks, so each contract would have to say that plan and depth stay; and `f(m.plan, m.refs)` of such an `m` was
// tried, and is not covered by the borrow checker.
#![tactic(auto)]

pub mod bind;
pub mod constraint;
pub mod fields;
