// The bindings that a step names before its own line: codegen.rs 686, `bind_order`.
ghost use Rattle.std.specs.Prelude.{◌<◌, [], ◌∷◌, drop};
ghost use Rattle.std.proofs.Math.Option.{none};
ghost use Rattle.codegen.specs.Block.{let_line};
ghost use Rattle.emits.specs.Marks.{set_of};
ghost use Rattle.body.specs.Told.{row_in, body_told, StandsAt};
ghost use Rattle.body.specs.Own.{WritesOwn};
ghost use Rattle.body.specs.Words.{HasDepth, WritesWords};
ghost use Rattle.steps.specs.Rows.{lets_at};

use crate::buffer::let_head;
use body::Body;
use emits::stablemapset::insert;
use text::sink::Sink;
use view::heads::BLOCK_HEAD;

fn let_line(
    w: &mut Sink<'_>,
    body: &Body<'_>,
    refs: &mut [bool],
    bound: &[bool],
    depth: usize,
    b: usize,
)
    ensures { let t = body.now in WritesWords (HasDepth depth b) t depth (let_line (body_told t) (set_of bound.now) b) w.old refs.old w.new refs.new }
{
    let_head(w, body, depth, b);
    body.emit_expr(w, refs, bound, depth, b);
    w.put_bytes(b";");
}

// One binding, which has a name from the line after its own on.
fn emit_let(
    w: &mut Sink<'_>,
    body: &Body<'_>,
    refs: &mut [bool],
    bound: &mut [bool],
    depth: usize,
    b: usize,
)
    ensures { WritesOwn (HasDepth depth b) body.now (StandsAt depth) (lets_at (set_of bound.old) (b ∷ [])) w.old refs.old none w.new refs.new bound.new }
{
    w.put_indent(depth);
    let_line(w, body, refs, bound, depth, b);
    insert(bound, b);
    w.put_byte(b'\n');
}

// The bindings of row r, a step, in order.
pub fn emit_lets(
    w: &mut Sink<'_>,
    body: &Body<'_>,
    refs: &mut [bool],
    bound: &mut [bool],
    depth: usize,
    r: usize,
)
    ensures { WritesOwn (depth < 4294967296) body.now (StandsAt depth) (lets_at (set_of bound.old) (drop 7 (row_in body.now r))) w.old refs.old none w.new refs.new bound.new }
{
    for b in body.bindings.plan.list(r, BLOCK_HEAD) {
        emit_let(w, body, refs, bound, depth, *b as usize);
    }
}
