// Reading and weights for crates above this one: a plan's bytes into buffers, what the buffers hold, and how a block's rows stand
// below one another. `view/specs/Buffers.antt` says which plan the buffers hold (`plan_of`). Each publishes a method of `Plan` or a
// function of a crate below, by one call.
ghost use Rattle.std.specs.Prelude.{◌≡◌, ℕ, List, [], ◌+◌, ◌<◌, length, get_or, drop};
ghost use Rattle.plan.specs.Row.{level};
ghost use Rattle.plan.specs.Refusal.{outcome};
ghost use Rattle.codegen.specs.Block.{arm_count, block_weight};
ghost use Rattle.splitting.specs.Demand3.{rows_below};
ghost use Rattle.rows.specs.View.{nth, type_of, variant_of, term_of, binding_of, block_of};
ghost use Rattle.layout.specs.View.{cut, text_of};
ghost use Rattle.view.specs.Buffers.{words_of, rows_of};
ghost use Rattle.view.specs.Tables.{table_rows};
ghost use Rattle.view.specs.Told.{type_told, variant_told, term_told, binding_told, control_flow_told, control_flow_of, constraint_told, constraint_of};
ghost use Rattle.reader.specs.Reading.{Says, Keeps};
ghost use Rattle.refusals.specs.Answered.{Indexes};
ghost use Rattle.weights.specs.Between.{rows_between};

use reader::Held;
use refusal::Refusal;
use view::binding::Binding;
use view::block::{Constraint, ControlFlow};
use view::buffers::Plan;
use view::environment::{Term, TypeData, Variant};

// Reads a plan into the buffers and judges it by the refusals 1 to 10: the refusal, or how many rows and tables the buffers hold.
// The refusals 1 and 2 change no buffer, and 3 not the index. Any other refusal leaves any numbers in them, as do the entries past
// those that a held plan uses: `rows` up to the number of rows, `tables` up to the number of tables, `words` up to the end of the last row.
// The buffers are the caller's, since there is no heap; their types say how long they are.
pub fn read(
    plan: &[u8],
    words: &mut [u32; 65536],
    rows: &mut [u32; 32769],
    tables: &mut [u32; 16385],
    index: &mut [u32; 1281],
) -> Result<Held, Refusal>
    ensures says { Says (outcome plan.now) plan.now result words.new rows.new tables.new }
    ensures indexes { Indexes result words.new rows.new tables.new index.new }
    ensures keeps { Keeps 2 result words.old words.new × Keeps 2 result rows.old rows.new × Keeps 2 result tables.old tables.new }
    ensures keeps_index { Keeps 3 result index.old index.new }
{
    refusals::read(plan, words, rows, tables, index)
}

// How many rows table t has.
pub fn row_count(plan: &Plan<'_, '_, '_>, t: usize) -> usize
    ensures own { (result ≡ length (rows_of plan.now t)) × (result < 4294967296) }
    ensures any { (words rows : List ℕ) → result ≡ length (table_rows words rows plan.now.tables.now t) }
{
    plan.row_count(t)
}

// The number of row i of table t; where the table has no such row, a number that no row has.
pub fn row_at(plan: &Plan<'_, '_, '_>, t: usize, i: usize) -> usize
    ensures own { words_of plan.now result ≡ get_or (rows_of plan.now t) i [] }
    ensures any { (words : List ℕ) → let p = plan.now in cut words p.rows.now result ≡ get_or (table_rows words p.rows.now p.tables.now t) i [] }
{
    plan.row_at(t, i)
}

// The word k of row r.
pub fn word(plan: &Plan<'_, '_, '_>, r: usize, k: usize) -> usize
    ensures { result ≡ nth (words_of plan.now r) k }
{
    plan.word(r, k)
}

// The list of row r, which stands after `header` words.
pub fn list<'w>(plan: &Plan<'_, 'w, '_>, r: usize, header: usize) -> &'w [u32]
    ensures { result.now ≡ drop header (words_of plan.now r) }
{
    plan.list(r, header)
}

// The text of row r, whose words are its start and its end in the plan.
pub fn text_at<'p>(plan: &Plan<'p, '_, '_>, r: usize) -> &'p [u8]
    ensures { result.now ≡ text_of plan.now.bytes.now (words_of plan.now r) }
{
    plan.text_at(r)
}

// The type of row r; its fields are the list after five words.
pub fn type_at(plan: &Plan<'_, '_, '_>, r: usize) -> TypeData
    ensures { type_told result (drop 5 (words_of plan.now r)) ≡ type_of (words_of plan.now r) }
{
    plan.type_at(r)
}

// The variant of row r; its fields are the list after three words.
pub fn variant_at(plan: &Plan<'_, '_, '_>, r: usize) -> Variant
    ensures { variant_told result (drop 3 (words_of plan.now r)) ≡ variant_of (words_of plan.now r) }
{
    plan.variant_at(r)
}

// The term of row r; the types of its arguments are the list after eight words.
pub fn term_at(plan: &Plan<'_, '_, '_>, r: usize) -> Term
    ensures { term_told result (drop 8 (words_of plan.now r)) ≡ term_of (words_of plan.now r) }
{
    plan.term_at(r)
}

// The binding of row r; its sources are the list after six words.
pub fn binding_at(plan: &Plan<'_, '_, '_>, r: usize) -> Binding
    ensures { binding_told result ≡ (binding_of (words_of plan.now r)).binding }
{
    plan.binding_at(r)
}

// What row r, a step, does; its `bind_order` is the list after seven words.
pub fn control_flow_at(plan: &Plan<'_, '_, '_>, r: usize) -> ControlFlow
    ensures { control_flow_told result ≡ control_flow_of (words_of plan.now r) }
{
    plan.control_flow_at(r)
}

// What row r, an arm, asks; its bindings are the list after seven words.
pub fn constraint_at(plan: &Plan<'_, '_, '_>, r: usize) -> Constraint
    ensures { constraint_told result ≡ constraint_of (words_of plan.now r) }
{
    plan.constraint_at(r)
}

// How many arms a match of a level has, of the rows from row `from` up to row `end`. This and the next two publish
// those of `weights`.
pub fn arm_count(plan: &Plan<'_, '_, '_>, level: usize, from: usize, end: usize) -> usize
    ensures { result ≡ arm_count level (rows_between plan.now from end) }
{
    weights::arm_count(plan, level, from, end)
}

// How much the rows below a row of a level weigh, of the rows from row `from` up to row `end`: the steps among them.
pub fn block_weight(plan: &Plan<'_, '_, '_>, level: usize, from: usize, end: usize) -> usize
    ensures { result ≡ block_weight level (rows_between plan.now from end) }
{
    weights::block_weight(plan, level, from, end)
}

// How many rows stand below row r, of the rows up to row `end`: those after it, up to the next row of its level or a lower one.
pub fn rows_below(plan: &Plan<'_, '_, '_>, r: usize, end: usize) -> usize
    ensures { result ≡ length (rows_below (level (block_of (words_of plan.now r))) (rows_between plan.now (r + 1) end)) }
{
    weights::rows_below(plan, r, end)
}
