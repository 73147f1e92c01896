// The walk over the rows of a block, with the names at each row. A turn of the loop closes a frame, or judges a row and puts its lines, so
// it is no `for` over rows. There is no heap: the frames are lent, one for each level of an accepted plan.
ghost use Rattle.std.specs.Prelude.{◌≡◌, ◌<◌, [], length};
ghost use Rattle.codegen.specs.Terms.{no_marks};
ghost use Rattle.emits.specs.Marks.{set_of};
ghost use Rattle.row_frames.specs.Stack.{open_frames};
ghost use Rattle.faults.specs.Walk.{BlockPut};

use super::line::put_row;
use crate::names::Names;
use crate::row::judge_row;
use row_frames::stack::{Frame, Stack};
use std::ops::Range;
use text::sink::Sink;
use view::bindings::Bindings;

// The lines of these rows. No frame is open yet, and no binding has a name.
// Not one generic function with the walk of `blocks`: what a turn does at an opening and a closing differs, and each has its own invariant.
fn put_rows(
    w: &mut Sink<'_>,
    stack: &mut Stack<'_, ()>,
    names: &mut Names<'_>,
    term: usize,
    rows: &Range<usize>,
)
    requires frames { open_frames stack.old.frames.now stack.old.top ≡ [] }
    requires names { set_of names.old.bound ≡ no_marks }
    ensures { BlockPut names.old.bindings term rows.now.start rows.now.end (length stack.old.frames.now) w.old w.new }
{
    let mut r = rows.start;
    'rows: while w.at < w.end && r < rows.end {
        // As a cell, which has 32 bits: one more is a number.
        let level = names.bindings.plan.cell(r, 0) as usize;
        let frame = stack.last();
        if level < frame.level {
            names.restore(&frame.bound);
            stack.pop();
            continue;
        }
        let purpose = frame.purpose;
        let top = stack.top + 1;
        if stack.frames.len() <= top {
            return;
        }
        let frames = &mut *stack.frames;
        let s = judge_row(names, &mut frames[top].bound, r, rows.end, purpose);
        put_row(w, term, r - rows.start, s.faults);
        if let Some(purpose) = s.opens {
            stack.push(level + 1, purpose, ());
        }
        r += 1;
    }
}

// The lines of these rows, the block of a generated term with these bindings. Lent is room for the frames. The rows are a range, as `put_term` has it
// from the plan; the walk of `blocks` is given two numbers by what chooses its room.
pub fn put_block(
    w: &mut Sink<'_>,
    frames: &mut [Frame<()>],
    bindings: &Bindings<'_>,
    term: usize,
    rows: &Range<usize>,
)
    requires { 0 < length frames.old }
    ensures { BlockPut bindings.now term rows.now.start rows.now.end (length frames.old) w.old w.new }
{
    let mut answers = [0u32; 1024];
    let mut names = Names::new(*bindings, &mut answers);
    let mut stack = Stack::new(frames, ());
    put_rows(w, &mut stack, &mut names, term, rows);
}
