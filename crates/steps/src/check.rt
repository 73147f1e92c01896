// A step's own line: codegen.rs 740.
ghost use Rattle.std.specs.Prelude.{Bool, List, ℕ, ◌+◌, ◌<◌, ◌≡◌};
ghost use Rattle.plan.specs.Row as row;
ghost use Rattle.plan.specs.Row.{Row};
ghost use Rattle.rows.specs.View.{nth};
ghost use Rattle.view.specs.Buffers.{words_of};
ghost use Rattle.view.specs.Told.{control_flow_told, control_flow_of};
ghost use Rattle.emits.specs.Marks.{set_of};
ghost use Rattle.row_frames.specs.Rows.{rows_from};
ghost use Rattle.row_frames.specs.Told.{opens_told};
ghost use Rattle.body.specs.Told.{row_in, rows_in, StandsAt, StandsIn};
ghost use Rattle.body.specs.Own.{WritesOwn};
ghost use Rattle.body.specs.Words.{HasDepth};
ghost use Rattle.steps.specs.Rows.{check_at};
ghost use Rattle.steps.specs.Small.{word_bound, SmallFlow};

use super::matches::emit_match;
use crate::heads::{equal_head, loop_head};
use crate::returns::emit_return;
use body::Body;
use context::body_context::Nesting;
use emits::stablemapset::insert;
use row_frames::Purpose;
use text::sink::Sink;
use view::block::ControlFlow;
use view::buffers::Plan;
use view::word_in;

// codegen.rs 779
fn emit_equal(
    w: &mut Sink<'_>,
    body: &Body<'_>,
    refs: &mut [bool],
    bound: &[bool],
    depth: usize,
    a: usize,
    b: usize,
) -> Option<Purpose>
    ensures { (l : ℕ) (rs : List Row) → WritesOwn (HasDepth depth a × HasDepth depth b) body.now (StandsAt depth) (check_at (set_of bound.now) l (row.Equal a b) rs) w.old refs.old (opens_told result) w.new refs.new bound.now }
{
    w.put_indent(depth);
    equal_head(w, body, refs, bound, depth, a, b);
    w.put_byte(b'\n');
    Some(Purpose::Body)
}

// codegen.rs 789: the result has a name inside the loop.
fn emit_loop(
    w: &mut Sink<'_>,
    body: &Body<'_>,
    bound: &mut [bool],
    depth: usize,
    r: usize,
) -> Option<Purpose>
    ensures { (refs : List Bool) (l : ℕ) (rs : List Row) → WritesOwn (Unit {0}) body.now (StandsAt depth) (check_at (set_of bound.old) l (row.Loop r) rs) w.old refs (opens_told result) w.new refs bound.new }
{
    let q = word_in(body.bindings.sources(r), 0) as usize;
    insert(bound, r);
    w.put_indent(depth);
    loop_head(w, depth, r, q);
    w.put_byte(b'\n');
    Some(Purpose::Body)
}

// The row after row r, or row `last` where r is not before it: no row stands from either on.
#[tactic(auto, using(row_frames::specs::Rows::rows_none))]
fn after(r: usize, last: usize) -> usize
    ensures { (words rows : List ℕ) → rows_from words rows last result ≡ rows_from words rows last (r + 1) }
{
    r.saturating_add(1).min(last)
}

// Each word is a number of 32 bits, which the check knows of a slice that is read.
fn know_words(row: &[u32])
    ensures { (k : ℕ) → nth row.now k < word_bound }
{
    let _count = row.len();
}

// What row r, a step, does: the numbers of its bindings are words of the plan.
fn control_flow_at(plan: &Plan<'_, '_, '_>, r: usize) -> ControlFlow
    ensures told { control_flow_told result ≡ control_flow_of (words_of plan.now r) }
    ensures small { SmallFlow (control_flow_told result) }
{
    know_words(plan.row(r));
    plan.control_flow_at(r)
}

// Row r, a step, where the rows after it up to row `last` stand.
pub fn emit_check(
    w: &mut Sink<'_>,
    body: &Body<'_>,
    refs: &mut [bool],
    bound: &mut [bool],
    nesting: Nesting,
    r: usize,
    last: usize,
) -> Option<Purpose>
    ensures { let b = body.now in WritesOwn (nesting.depth < 4294967296) b (StandsIn nesting) (check_at (set_of bound.old) (nth (row_in b r) 0) (control_flow_of (row_in b r)) (rows_in b last (r + 1))) w.old refs.old (opens_told result) w.new refs.new bound.new }
{
    let depth = nesting.depth;
    match control_flow_at(body.bindings.plan, r) {
        ControlFlow::Match { source } => {
            let level = body.bindings.plan.word(r, 0);
            emit_match(
                w,
                body,
                refs,
                bound,
                depth,
                level,
                after(r, last),
                last,
                source,
            )
        }
        ControlFlow::Equal { a, b } => emit_equal(w, body, refs, bound, depth, a, b),
        ControlFlow::Loop { result } => emit_loop(w, body, bound, depth, result),
        ControlFlow::Return { result, pos } => {
            emit_return(w, body, refs, bound, nesting, result, pos);
            None
        }
    }
}
