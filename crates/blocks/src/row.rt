// What one row of a block does: it writes its own, and may open a frame and a closure in it.
ghost use Rattle.std.specs.Prelude.{◌≡◌, Bool, ◌&&◌, ℕ, ◌<◌};
ghost use Rattle.std.proofs.Math.Option.{some, none};
ghost use Rattle.codegen.specs.Block.{is_arm_body};
ghost use Rattle.emits.specs.Marks.{set_of};
ghost use Rattle.row_frames.specs.Told.{purpose_told, opens_told};
ghost use Rattle.body.specs.Told.{StandsAt, StandsIn};
ghost use Rattle.body.specs.Own.{WritesOwn};
ghost use Rattle.blocks.specs.Row.{Splitting, lets_in, check_in, weight_in, WritesRow, frame_of, splits_of};

use body::Body;
use context::block::begin_closure;
use context::body_context::{BodyContext, Nesting};
use row_frames::Purpose;
use steps::arm::emit_arm;
use steps::check::emit_check;
use steps::lets::emit_lets;
use text::sink::Sink;

// The frame that a row opens: what it is for, and whether it has a closure.
#[derive(Clone, Copy)]
pub struct Opened {
    pub purpose: Purpose,
    pub splits: bool,
}

// A step's `bind_order`; an arm has none. How deep lines are is asked of each call: an invariant of `Nesting` would ask it of `end_block`, too.
pub fn emit_bind_order(w: &mut Sink<'_>, body: &Body<'_>, context: &mut BodyContext, r: usize)
    requires { context.old.nesting.depth < 4095 }
    ensures own { WritesOwn (Unit {0}) body.now (StandsAt context.old.nesting.depth) (lets_in body.now (set_of context.old.is_bound) r) w.old context.old.is_ref none w.new context.new.is_ref context.new.is_bound }
    ensures nesting { context.new.nesting ≡ context.old.nesting }
{
    if body.bindings.plan.is_step(r) {
        let depth = context.nesting.depth;
        emit_lets(
            w,
            body,
            &mut context.is_ref,
            &mut context.is_bound,
            depth,
            r,
        );
    }
}

// A step's check, or an arm.
fn emit_case(
    w: &mut Sink<'_>,
    body: &Body<'_>,
    refs: &mut [bool],
    bound: &mut [bool],
    nesting: Nesting,
    r: usize,
    last: usize,
    purpose: Purpose,
) -> Option<Purpose>
    requires { nesting.depth < 4095 }
    ensures { WritesOwn (Unit {0}) body.now (StandsIn nesting) (check_in body.now (set_of bound.old) (purpose_told purpose) r last) w.old refs.old (opens_told result) w.new refs.new bound.new }
{
    if body.bindings.plan.is_step(r) {
        return emit_check(w, body, refs, bound, nesting, r, last);
    }
    emit_arm(w, body, refs, bound, nesting.depth, r, purpose)
}

// Is a frame that of an arm of a match of several?
fn is_arm_body(purpose: Purpose) -> bool
    ensures { result ≡ is_arm_body (some (purpose_told purpose)) }
{
    matches!(purpose, Purpose::ArmBody)
}

// codegen.rs 880: does row r split, an arm that opens a frame? Nothing is weighed where the term can't split.
// No `is_some_and`: of a closure that holds the plan it says nothing about the answer.
#[tactic(auto, using(crate::specs::Row::weight_is))]
fn splits_at(body: &Body<'_>, r: usize, last: usize, purpose: Purpose) -> bool
    ensures { (sp : ℕ → Bool) → Splitting sp body.now.threshold → result ≡ is_arm_body (some (purpose_told purpose)) && sp (weight_in body.now r last) }
{
    if !is_arm_body(purpose) {
        return false;
    }
    let Some(threshold) = body.threshold else {
        return false;
    };
    let plan = body.bindings.plan;
    threshold < weights::block_weight(plan, plan.word(r, 0), r.saturating_add(1), last)
}

// What row r does after its `bind_order`, up to the closure that it opens.
pub fn emit_rest(
    w: &mut Sink<'_>,
    body: &Body<'_>,
    context: &mut BodyContext,
    r: usize,
    last: usize,
    purpose: Purpose,
) -> Option<Opened>
    requires { context.old.nesting.depth < 4095 }
    ensures { WritesRow body.now (check_in body.now (set_of context.old.is_bound) (purpose_told purpose) r last) (weight_in body.now r last) w.old context.old (frame_of result) (splits_of result) w.new context.new }
{
    let nesting = context.nesting;
    let purpose = emit_case(
        w,
        body,
        &mut context.is_ref,
        &mut context.is_bound,
        nesting,
        r,
        last,
        purpose,
    )?;
    let splits = splits_at(body, r, last, purpose);
    begin_closure(w, nesting.depth + 1, splits);
    Some(Opened { purpose, splits })
}
