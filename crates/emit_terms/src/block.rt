// The block of a generated term: its rows are those of a table.
ghost use Rattle.std.specs.Prelude.{◌≡◌, ◌≤◌, ◌<◌};
ghost use Rattle.plan.specs.Refusal.{every};
ghost use Rattle.context.specs.Context.{outermost};
ghost use Rattle.blocks.specs.Loop.{BlockWritten};
ghost use Rattle.emit_terms.specs.Told.{Started, below_eight, block_in, BodyWritten};

use blocks::walk::{RowFrame, emit_block_contents};
use body::Body;
use checks::tables::all_rows;
use constructors::arguments::argument_refs;
use context::body_context::BodyContext;
use row_frames::stack::Frame;
use sema::signature::ExternalSig;
use text::sink::Sink;
use view::bindings::Bindings;
use view::buffers::Plan;

// What is marked where the block begins: the arguments that are references.
#[tactic(auto, using(crate::specs::Term::started))]
fn begin_body(bindings: &Bindings<'_>, sig: ExternalSig) -> BodyContext
    ensures { Started bindings.now.plan.now bindings.now.table sig result }
{
    let plan = bindings.plan;
    let mut context = BodyContext::new();
    let rows = plan.row_range(bindings.table);
    argument_refs(plan, rows.start, rows.end, sig, &mut context);
    context
}

// Is each level of a block below 8?
#[tactic(auto, using(crate::specs::Term::few_rows))]
fn is_shallow(plan: &Plan<'_, '_, '_>, block: usize) -> bool
    ensures { result ≡ every below_eight (block_in plan.now block) }
{
    all_rows(plan, block, |r| plan.word(r, 0) < 8)
}

// The block, with so many places for open frames and the root. Its first row and the one past its last are two
// numbers: it is told twice with another room, and a `Range` is not `Copy`.
fn emit_with<const PLACES: usize>(
    w: &mut Sink<'_>,
    body: &Body<'_>,
    context: BodyContext,
    first: usize,
    last: usize,
)
    requires some { (0 < PLACES) × (PLACES ≤ 65) }
    requires starts { context.nesting ≡ outermost }
    ensures { BlockWritten body.now first last PLACES context.is_ref context.is_bound w.old w.new }
{
    let mut frames = [Frame::root(RowFrame::ROOT); PLACES];
    emit_block_contents(w, body, context, &mut frames, first, last);
}

// The block in a table. Where each level is below 8, few places are enough: to clear room for 64 levels takes longer than to write a small
// term.
pub fn emit_body(w: &mut Sink<'_>, body: &Body<'_>, block: usize, sig: ExternalSig)
    ensures { BodyWritten body.now block sig w.old w.new }
{
    let plan = body.bindings.plan;
    let context = begin_body(&body.bindings, sig);
    let rows = plan.row_range(block);
    if is_shallow(plan, block) {
        emit_with::<9>(w, body, context, rows.start, rows.end);
    } else {
        emit_with::<65>(w, body, context, rows.start, rows.end);
    }
}
