// A match: codegen.rs 741 to 777.
ghost use Rattle.std.proofs.Math.Option.{some};
ghost use Rattle.plan.specs.Row as row;
ghost use Rattle.codegen.specs.Block.{arms_of, one_arm};
ghost use Rattle.emits.specs.Marks.{set_of};
ghost use Rattle.row_frames.specs.Told.{opens_told};
ghost use Rattle.body.specs.Told.{rows_in, StandsAt};
ghost use Rattle.body.specs.Own.{WritesOwn};
ghost use Rattle.body.specs.Words.{HasDepth};
ghost use Rattle.steps.specs.Rows.{check_at, one_arm_at, several_arms_at};

use crate::heads::{match_head, one_arm_head};
use body::Body;
use row_frames::{Arms, Purpose, arms_of, bind_all, opened_by};
use text::sink::Sink;
use view::heads::BLOCK_HEAD;

// A match with one arm, which is row `first`: its bindings have names where its source is written, too.
fn one_arm(
    w: &mut Sink<'_>,
    body: &Body<'_>,
    refs: &mut [bool],
    bound: &mut [bool],
    depth: usize,
    q: usize,
    first: usize,
)
    ensures { WritesOwn (HasDepth depth q) body.now (StandsAt depth) (one_arm_at body.now (set_of bound.old) q first) w.old refs.old (some one_arm) w.new refs.new bound.new }
{
    let k = body.bindings.plan.constraint_at(first);
    bind_all(bound, body.bindings.plan.list(first, BLOCK_HEAD));
    w.put_indent(depth);
    one_arm_head(w, body, refs, bound, depth, q, k, first);
    w.put_byte(b'\n');
}

// Another match, by the constraint of its first arm.
fn several_arms(
    w: &mut Sink<'_>,
    body: &Body<'_>,
    refs: &mut [bool],
    bound: &[bool],
    depth: usize,
    q: usize,
    first: usize,
)
    ensures { WritesOwn (HasDepth depth q) body.now (StandsAt depth) (several_arms_at body.now (set_of bound.now) q first) w.old refs.old (some (arms_of q)) w.new refs.new bound.now }
{
    let k = body.bindings.plan.constraint_at(first);
    w.put_indent(depth);
    match_head(w, body, refs, bound, depth, q, k);
    w.put_byte(b'\n');
}

// The match of q, of a level, where the rows from row `first` up to row `last` stand after it. One that no arm follows writes nothing.
// `first` and `last` stay two numbers, as at `row_frames::arms_of`: a `Range` is not `Copy`, and a value of them would be made at each call.
pub fn emit_match(
    w: &mut Sink<'_>,
    body: &Body<'_>,
    refs: &mut [bool],
    bound: &mut [bool],
    depth: usize,
    level: usize,
    first: usize,
    last: usize,
    q: usize,
) -> Option<Purpose>
    ensures { let b = body.now in WritesOwn (HasDepth depth q) b (StandsAt depth) (check_at (set_of bound.old) level (row.Match q) (rows_in b last first)) w.old refs.old (opens_told result) w.new refs.new bound.new }
{
    let arms = arms_of(body.bindings.plan, level, first, last);
    match arms {
        Arms::Absent => {}
        Arms::One => one_arm(w, body, refs, bound, depth, q, first),
        Arms::Several => several_arms(w, body, refs, bound, depth, q, first),
    }
    opened_by(arms, q)
}
