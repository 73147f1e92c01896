// The refusals 4 and 7 to 10, over the tables that the layout has read. Clause `own` is of the plan that the buffers hold, `any` of these tables with
// any bytes: of the texts, a check asks at most how many there are.
#![tactic(auto)]

pub mod arms;
pub mod list;
pub mod loops;
pub mod lower;
pub mod most;
pub mod returns;
pub mod tables;
