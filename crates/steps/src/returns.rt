// A return, with its rule, logging and limit: codegen.rs 816.
ghost use Rattle.std.specs.Prelude.{[]};
ghost use Rattle.std.proofs.Math.Option.{none};
ghost use Rattle.text.specs.Writes.{Writes};
ghost use Rattle.plan.specs.Plan.{Environment};
ghost use Rattle.codegen.specs.Block.{log_lines, return_line, returning};
ghost use Rattle.codegen.specs.ReturnKind.{by_return_kind};
ghost use Rattle.emits.specs.Marks.{set_of};
ghost use Rattle.sema.specs.Signature.{return_kind_told};
ghost use Rattle.body.specs.Told.{env_in, body_told, StandsAt, StandsIn};
ghost use Rattle.body.specs.Own.{WritesOwn};
ghost use Rattle.body.specs.Words.{HasDepth, WritesWords};
ghost use Rattle.steps.specs.ReturnLines.{rule_lines, overflow_lines, WritesLines};

use body::Body;
use context::block::put_iter_overflow_action;
use context::body_context::Nesting;
use emits::stablemapset::contains;
use expr_parts::put_clone;
use sema::signature::ReturnKind;
use sema::texts::{Text, put_quoted_text, put_text};
use text::sink::Sink;

// Where the rule stands.
fn put_rule(w: &mut Sink<'_>, body: &Body<'_>, depth: usize, p: usize)
    ensures { WritesLines (env_in body.now) (StandsAt depth) (rule_lines p) w.old w.new }
{
    w.put_indent(depth);
    w.put_bytes(b"// Rule at ");
    put_text(w, body.bindings.plan, Text::Pos, p);
    w.put_bytes(b".");
    w.put_byte(b'\n');
}

// The logging of the rule, if it is asked for.
fn put_log(w: &mut Sink<'_>, body: &Body<'_>, depth: usize, p: usize)
    ensures { WritesLines (env_in body.now) (StandsAt depth) (log_lines (body_told body.now) p) w.old w.new }
{
    if body.log {
        w.put_indent(depth);
        w.put_bytes(b"log::debug!(\"ISLE {} {}\", ");
        put_quoted_text(w, body.bindings.plan, Text::Sym, body.term_name);
        w.put_bytes(b", ");
        put_quoted_text(w, body.bindings.plan, Text::Pos, p);
        w.put_bytes(b");");
        w.put_byte(b'\n');
    }
}

// One text where many values are returned, another where one is.
#[tactic(auto, unfolding(codegen::specs::ReturnKind::by_return_kind))]
fn put_by_kind(w: &mut Sink<'_>, kind: ReturnKind, many: &[u8], one: &[u8])
    ensures { Writes (by_return_kind (return_kind_told kind) many.now one.now one.now) w.old w.new }
{
    match kind {
        ReturnKind::Iterator => w.put_bytes(many),
        ReturnKind::Option | ReturnKind::Plain => w.put_bytes(one),
    }
}

// The result is asked about after it is written: one that is a reference is cloned.
fn return_line(
    w: &mut Sink<'_>,
    body: &Body<'_>,
    refs: &mut [bool],
    bound: &[bool],
    depth: usize,
    r: usize,
)
    ensures { let b = body.now in WritesWords (HasDepth depth r) b depth (return_line (body_told b) (set_of bound.now) r) w.old refs.old w.new refs.new }
{
    put_by_kind(w, body.ret_kind, b"returns.extend(Some(", b"return ");
    body.emit_expr(w, refs, bound, depth, r);
    put_clone(w, false, contains(refs, r));
    put_by_kind(w, body.ret_kind, b"));", b";");
}

// codegen.rs 891: inside a closure the function around it has to return too.
fn put_overflow(w: &mut Sink<'_>, nesting: Nesting)
    ensures { (env : Environment) → WritesLines env (StandsIn nesting) overflow_lines w.old w.new }
{
    w.put_indent(nesting.depth);
    w.put_bytes(b"if returns.len() >= MAX_ISLE_RETURNS { ");
    put_iter_overflow_action(w, nesting.in_closure);
    w.put_bytes(b" }");
    w.put_byte(b'\n');
}

// Where many values are returned, their number has a limit.
fn put_limit(w: &mut Sink<'_>, kind: ReturnKind, nesting: Nesting)
    ensures { (env : Environment) → WritesLines env (StandsIn nesting) (by_return_kind (return_kind_told kind) overflow_lines [] []) w.old w.new }
{
    match kind {
        ReturnKind::Iterator => put_overflow(w, nesting),
        ReturnKind::Option | ReturnKind::Plain => {}
    }
}

// The return of r, by the rule at p. That its line is not too deep is a premise and no type, since a type would ask it of callers that need
// no more than the marks.
pub fn emit_return(
    w: &mut Sink<'_>,
    body: &Body<'_>,
    refs: &mut [bool],
    bound: &[bool],
    nesting: Nesting,
    r: usize,
    p: usize,
)
    ensures { WritesOwn (HasDepth nesting.depth r) body.now (StandsIn nesting) (λ c q. returning c (set_of bound.now) r p q) w.old refs.old none w.new refs.new bound.now }
{
    let depth = nesting.depth;
    put_rule(w, body, depth, p);
    put_log(w, body, depth, p);
    w.put_indent(depth);
    return_line(w, body, refs, bound, depth, r);
    w.put_byte(b'\n');
    put_limit(w, body.ret_kind, nesting);
}
