// The first lines of matches, `equal` and `loop`: codegen.rs 740 to 815.
ghost use Rattle.plan.specs.Plan.{Environment};
ghost use Rattle.codegen.specs.Block.{one_arm_head, match_head, equal_head, loop_head};
ghost use Rattle.view.specs.Told.{constraint_told};
ghost use Rattle.emits.specs.Marks.{set_of};
ghost use Rattle.emits.specs.Sinks.{Shows};
ghost use Rattle.body.specs.Told.{pattern_in, body_told};
ghost use Rattle.body.specs.Words.{HasDepth, WritesWords};
ghost use Rattle.steps.specs.Loops.{iterator_line};

use body::Body;
use expr_parts::pieces::{put_break, put_var};
use pattern::constraint::emit_constraint;
use row_frames::is_constant;
use text::sink::Sink;
use view::block::Constraint;
use view::heads::BLOCK_HEAD;

// codegen.rs 742: a match with one arm, which is row r and whose bindings have names already. Of a constant the source comes first.
pub fn one_arm_head(
    w: &mut Sink<'_>,
    body: &Body<'_>,
    refs: &mut [bool],
    bound: &[bool],
    depth: usize,
    q: usize,
    k: Constraint,
    r: usize,
)
    ensures { let b = body.now in WritesWords (HasDepth depth q) b depth (one_arm_head (body_told b) (set_of bound.now) q (constraint_told k) (pattern_in b r)) w.old refs.old w.new refs.new }
{
    let plan = body.bindings.plan;
    let list = plan.list(r, BLOCK_HEAD);
    if is_constant(k) {
        w.put_bytes(b"if ");
        body.emit_expr(w, refs, bound, depth, q);
        w.put_bytes(b" == ");
        emit_constraint(w, plan, refs, depth, q, k, list);
    } else {
        w.put_bytes(b"if let ");
        emit_constraint(w, plan, refs, depth, q, k, list);
        w.put_bytes(b" = ");
        body.emit_source(w, refs, bound, depth, q, k);
    }
    w.put_bytes(b" {");
}

// codegen.rs 767: another match, by its first arm's constraint.
pub fn match_head(
    w: &mut Sink<'_>,
    body: &Body<'_>,
    refs: &mut [bool],
    bound: &[bool],
    depth: usize,
    q: usize,
    k: Constraint,
)
    ensures { let b = body.now in WritesWords (HasDepth depth q) b depth (match_head (body_told b) (set_of bound.now) q (constraint_told k)) w.old refs.old w.new refs.new }
{
    w.put_bytes(b"match ");
    body.emit_source(w, refs, bound, depth, q, k);
    w.put_bytes(b" {");
}

// codegen.rs 779
pub fn equal_head(
    w: &mut Sink<'_>,
    body: &Body<'_>,
    refs: &mut [bool],
    bound: &[bool],
    depth: usize,
    a: usize,
    b: usize,
)
    ensures { let t = body.now in WritesWords (HasDepth depth a × HasDepth depth b) t depth (equal_head (body_told t) (set_of bound.now) a b) w.old refs.old w.new refs.new }
{
    w.put_bytes(b"if ");
    body.emit_expr(w, refs, bound, depth, a);
    w.put_bytes(b" == ");
    body.emit_expr(w, refs, bound, depth, b);
    w.put_bytes(b" {");
}

// codegen.rs 789: the iterator q gets a name of its own again.
fn put_iterator(w: &mut Sink<'_>, depth: usize, q: usize)
    ensures { (env : Environment) → Shows env depth (iterator_line q) w.old w.new }
{
    w.put_bytes(b"let mut ");
    put_var(w, q);
    w.put_bytes(b" = ");
    put_var(w, q);
    w.put_bytes(b".into_context_iter();");
    put_break(w, depth, 0);
}

// Result r of the iterator q.
pub fn loop_head(w: &mut Sink<'_>, depth: usize, r: usize, q: usize)
    ensures { (env : Environment) → Shows env depth (loop_head r q) w.old w.new }
{
    put_iterator(w, depth, q);
    w.put_bytes(b"while let Some(");
    put_var(w, r);
    w.put_bytes(b") = ");
    put_var(w, q);
    w.put_bytes(b".next(ctx)");
    w.put_bytes(b" {");
}
