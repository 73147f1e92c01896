// What one row of a block writes: codegen.rs 672, `emit_block_contents`, without the walk over the rows.
// `heads` and `buffer` have the first lines of matches, `equal` and `loop`, and the start of a let; the other modules a row of each kind.
#![tactic(auto)]

pub mod arm;
pub mod buffer;
pub mod check;
pub mod heads;
pub mod lets;
pub mod matches;
pub mod returns;
