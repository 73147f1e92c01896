// Req 01: the sheet of a plan's schedule faults, from the decoded tables.
// What a written expression holds (`written`): a call that returns many, or a name that a pattern has just given. Expressions share sources,
// so an answer is kept for each binding, with a number that says for which question and which names it was found (`kept`). Then the faults
// of one row of a block, and what the row does to the names (`row`, and `list`, `check`, `matches` and `names`); the walk over a block's
// rows, and the lines (`walk`, `line`, `sheet`).
#![tactic(auto)]

pub mod check;
pub mod kept;
pub mod line;
pub mod list;
pub mod matches;
pub mod names;
pub mod row;
pub mod sheet;
pub mod walk;
pub mod written;
