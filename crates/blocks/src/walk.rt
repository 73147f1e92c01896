// The walk over the rows of a block. A turn of the loop closes a frame, or has a row write its own, so it is no `for` over rows. There is no
// heap: the stack has a place for each level of an accepted plan.
ghost use Rattle.std.specs.Prelude.{◌≡◌, length, [], ◌+◌, ◌^◌, ◌<◌};
ghost use Rattle.codegen.specs.Block.{numbered};
ghost use Rattle.rows.specs.View.{nth};
ghost use Rattle.context.specs.Closing.{closure_told};
ghost use Rattle.context.specs.Context.{outermost, deeper};
ghost use Rattle.context.specs.Laws.{is_several};
ghost use Rattle.row_frames.specs.Rows.{rows_from};
ghost use Rattle.row_frames.specs.Stack.{open_frames};
ghost use Rattle.row_frames.specs.Told.{purpose_told};
ghost use Rattle.body.specs.Told.{row_in};
ghost use Rattle.blocks.specs.Stack.{next_level};
ghost use Rattle.blocks.specs.Nesting.{Begun, Ended};
ghost use Rattle.blocks.specs.Row.{RowKept, frame_of, splits_of};
ghost use Rattle.blocks.specs.Frames.{Closed};
ghost use Rattle.blocks.specs.Loop.{BlockWritten};

use super::row::{Opened, emit_bind_order, emit_rest};
use body::Body;
use context::block::end_block;
use context::body_context::{BodyContext, Nesting, enter_scope};
use row_frames::Purpose;
use row_frames::stack::{Frame, Stack};
use text::sink::Sink;
use view::buffers::Plan;

// What the walk keeps of a frame, besides what each walk over rows does: its row, and the closure in it.
#[derive(Clone, Copy)]
pub struct RowFrame {
    pub row: usize,
    pub closure: Option<usize>,
}

impl RowFrame {
    // Of the root, which no row opens.
    pub const ROOT: RowFrame = RowFrame {
        row: 0,
        closure: None,
    };

    // Of what row `row` of the block opens: its closure, if it has one, has the next number.
    #[tactic(auto, using(crate::specs::Stack::numbered_told))]
    fn new(row: usize, splits: bool, nesting: Nesting) -> RowFrame
        ensures row { result.row ≡ row }
        ensures closure { closure_told result.closure ≡ numbered splits nesting.match_split }
    {
        let closure = splits.then_some(nesting.match_split);
        RowFrame { row, closure }
    }
}

// One more than the level of row r, 0 past the last row: there each frame closes, as its level is not below 0. The level is read as a cell, which
// has 32 bits: one more is a number.
#[tactic(auto, using(crate::specs::Stack::level_next, crate::specs::Stack::level_none))]
fn next_level(plan: &Plan<'_, '_, '_>, r: usize, last: usize) -> usize
    ensures level { result ≡ next_level (rows_from plan.now.words.now plan.now.rows.now last r) }
    ensures there { 0 < result → r < last }
{
    if r < last {
        return plan.cell(r, 0) as usize + 1;
    }
    0
}

// Is a frame a match of several arms?
fn is_several(purpose: Purpose) -> bool
    ensures { result ≡ is_several (purpose_told purpose) }
{
    matches!(purpose, Purpose::ArmsOf(_))
}

// What opening a frame does to the nesting: its block begins. If it has a closure, that is numbered, and its block begins too: codegen.rs 885
// to 889.
fn begin_frame(nesting: Nesting, splits: bool) -> Nesting
    requires { (nesting.depth < 4095) × (nesting.match_split + 1 < 2 ^ 64) }
    ensures { Begun nesting splits result }
{
    let mut inner = nesting.begin_block();
    if splits {
        inner = inner.count_split().begin_block();
        inner.in_closure = true;
    }
    inner
}

// A frame closes, around which d are open: its block ends, and so does that of its closure. Inside a closure stands what is deeper than
// the frames around it.
fn end_frame(nesting: Nesting, d: usize, closure: Option<usize>) -> Nesting
    requires { d + 1 < nesting.depth }
    ensures { Ended nesting d (closure_told closure) result }
{
    let mut outer = nesting.end_block();
    if closure.is_some() {
        outer = outer.end_block();
    }
    outer.in_closure = d + 1 < outer.depth;
    outer
}

// The frame closes, around which d are open: the bindings have names that had them where it opened.
fn close_frame(w: &mut Sink<'_>, context: &mut BodyContext, frame: &Frame<RowFrame>, d: usize)
    requires { (d + 1 < context.old.nesting.depth) × (context.old.nesting.depth < 4096) }
    ensures { Closed frame.now d w.old context.old w.new context.new }
{
    let closure = frame.own.closure;
    let nesting = end_frame(context.nesting, d, closure);
    context.is_bound = frame.bound;
    context.nesting = nesting;
    end_block(w, nesting, closure, is_several(frame.purpose));
}

// The bindings that have names where the frame that row r opens closes are kept; a `return` opens no frame. Not one function with
// `save_names` of `faults::names`: this goes through codegen.rs's step `enter_scope`, which document 01 names and a judge does not take;
// one function for both would take the step out of here.
fn save_scope(scope: &mut [bool; 1024], bound: &[bool; 1024], body: &Body<'_>, r: usize)
    ensures { (nth (row_in body.now r) 1 ≡ 3 → ⊥) → scope.new ≡ bound.now }
{
    if !body.bindings.plan.is_return(r) {
        *scope = enter_scope(*bound);
    }
}

// Row r, inside a frame of a purpose; the bindings that have names where the frame that it opens closes are kept in `scope`.
fn emit_row(
    w: &mut Sink<'_>,
    body: &Body<'_>,
    context: &mut BodyContext,
    scope: &mut [bool; 1024],
    r: usize,
    last: usize,
    purpose: Purpose,
) -> Option<Opened>
    requires { context.old.nesting.depth < 4095 }
    ensures { RowKept body.now (purpose_told purpose) r last w.old context.old (frame_of result) (splits_of result) w.new context.new scope.new }
{
    emit_bind_order(w, body, context, r);
    save_scope(scope, &context.is_bound, body, r);
    emit_rest(w, body, context, r, last, purpose)
}

// The rows from row `first` up to row `last`, where no frame is open yet.
// Not one generic function with the walk of `faults`: what a turn does at an opening and a closing differs, and each has its own invariant.
fn emit_rows(
    w: &mut Sink<'_>,
    body: &Body<'_>,
    context: &mut BodyContext,
    stack: &mut Stack<'_, RowFrame>,
    first: usize,
    last: usize,
)
    requires none { open_frames stack.old.frames.now stack.old.top ≡ [] }
    requires starts { context.old.nesting ≡ deeper outermost }
    ensures { BlockWritten body.now first last (length stack.old.frames.now) context.old.is_ref context.old.is_bound w.old w.new }
{
    let mut r = first;
    'rows: while w.at < w.end {
        let next = next_level(body.bindings.plan, r, last);
        let d = stack.top;
        let frame = stack.last();
        let purpose = frame.purpose;
        if next <= frame.level {
            if d == 0 {
                return;
            }
            close_frame(w, context, frame, d - 1);
            stack.pop();
            continue;
        }
        if stack.frames.len().min(65) <= d + 1 {
            return;
        }
        let frames = &mut *stack.frames;
        let scope = &mut frames[d + 1].bound;
        if let Some(opened) = emit_row(w, body, context, scope, r, last, purpose) {
            let own = RowFrame::new(r - first, opened.splits, context.nesting);
            stack.push(next, opened.purpose, own);
            context.nesting = begin_frame(context.nesting, opened.splits);
        }
        r += 1;
    }
}

// The rows from row `first` up to row `last`, the block of a generated term. The context has the arguments' marks. Lent is room for the
// frames that are open at once, with the root. The first and the last row stay two numbers, as
// `emit_with` of `emit_terms` has them, which chooses the room.
pub fn emit_block_contents(
    w: &mut Sink<'_>,
    body: &Body<'_>,
    context: BodyContext,
    frames: &mut [Frame<RowFrame>],
    first: usize,
    last: usize,
)
    requires { (0 < length frames.old) × (context.nesting ≡ outermost) }
    ensures { BlockWritten body.now first last (length frames.old) context.is_ref context.is_bound w.old w.new }
{
    let mut state = context;
    state.nesting = context.nesting.begin_block();
    let mut stack = Stack::new(frames, RowFrame::ROOT);
    emit_rows(w, body, &mut state, &mut stack, first, last);
}
