// An arm of a match of several: codegen.rs 858.
ghost use Rattle.std.proofs.Math.Option.{some};
ghost use Rattle.codegen.specs.Block.{arms_of, arm_body};
ghost use Rattle.emits.specs.Marks.{set_of};
ghost use Rattle.row_frames.specs.Told.{purpose_told, opens_told};
ghost use Rattle.body.specs.Told.{StandsAt};
ghost use Rattle.body.specs.Own.{WritesOwn};
ghost use Rattle.steps.specs.Rows.{arm_at};

use body::Body;
use pattern::constraint::emit_constraint;
use row_frames::{Purpose, bind_all};
use text::sink::Sink;
use view::heads::BLOCK_HEAD;

// Row r, an arm of the match of q.
fn arm_of(
    w: &mut Sink<'_>,
    body: &Body<'_>,
    refs: &mut [bool],
    bound: &mut [bool],
    depth: usize,
    r: usize,
    q: usize,
)
    ensures { WritesOwn (Unit {0}) body.now (StandsAt depth) (arm_at body.now (set_of bound.old) (arms_of q) r) w.old refs.old (some arm_body) w.new refs.new bound.new }
{
    let plan = body.bindings.plan;
    let list = plan.list(r, BLOCK_HEAD);
    bind_all(bound, list);
    w.put_indent(depth);
    emit_constraint(w, plan, refs, depth, q, plan.constraint_at(r), list);
    w.put_bytes(b" =>");
    w.put_bytes(b" {");
    w.put_byte(b'\n');
}

// Row r, an arm inside a frame of a purpose. A match of one arm has written its arm.
pub fn emit_arm(
    w: &mut Sink<'_>,
    body: &Body<'_>,
    refs: &mut [bool],
    bound: &mut [bool],
    depth: usize,
    r: usize,
    purpose: Purpose,
) -> Option<Purpose>
    ensures { WritesOwn (Unit {0}) body.now (StandsAt depth) (arm_at body.now (set_of bound.old) (purpose_told purpose) r) w.old refs.old (opens_told result) w.new refs.new bound.new }
{
    match purpose {
        Purpose::ArmsOf(q) => {
            arm_of(w, body, refs, bound, depth, r, q);
            Some(Purpose::ArmBody)
        }
        Purpose::OneArm | Purpose::ArmBody | Purpose::Body => None,
    }
}
