// Expressions and sources: `emit_expr` of codegen.rs 915, and `emit_source` of 1063.
// The marks are lent: those of references change while writing, those of bound bindings are only read. They are slices of any length,
// which a set with 1,024 would narrow.
#![tactic(auto, using(emits::specs::Emitted::emitted), unfolding(codegen::specs::Piece::odd_pieces, codegen::specs::Piece::odd_piece))]

mod below;
mod between;
pub mod call;

ghost use Rattle.std.specs.Prelude.{◌≡◌};
ghost use Rattle.codegen.specs.Expr.{emit_expr, emit_source, wants_ref};
ghost use Rattle.text.specs.Writes.{SameSink};
ghost use Rattle.view.specs.Told.{constraint_told};
ghost use Rattle.emits.specs.Marks.{set_of};
ghost use Rattle.emits.specs.Runs.{Emits};
ghost use Rattle.expr.specs.Told.{env_in, bindings_of, bound_in, Fits};

use below::emit_below;
use emits::stablemapset::contains;
use expr_parts::put_borrow;
use text::sink::Sink;
use view::bindings::Bindings;
use view::block::Constraint;

// What does not change while an expression is written: the bindings, and which of them have names.
#[derive(Clone, Copy)]
pub struct Scope<'a> {
    pub bindings: Bindings<'a>,
    pub bound: &'a [bool],
}

// The expression of binding b, where the line that it stands on is `depth` deep. That this is a small number is a premise and no type,
// since a type would ask it of callers that need none of this.
pub fn emit_expr(w: &mut Sink<'_>, refs: &mut [bool], scope: &Scope<'_>, depth: usize, b: usize)
    ensures emits { let s = scope.now in Fits s depth b → Emits (env_in s) depth (emit_expr (env_in s) (bindings_of s) (bound_in s) b) w.old (set_of refs.old) w.new (set_of refs.new) }
    ensures same { SameSink w.old w.new }
{
    emit_below(w, refs, scope, depth, b);
}

// A pattern of a variant or a struct wants a reference.
fn wants_ref(c: Constraint) -> bool
    ensures { result ≡ wants_ref (constraint_told c) }
{
    matches!(c, Constraint::Variant { .. } | Constraint::Struct { .. })
}

// The source q of a match whose first arm has the constraint c. It is asked about before it is written.
pub fn emit_source(
    w: &mut Sink<'_>,
    refs: &mut [bool],
    scope: &Scope<'_>,
    depth: usize,
    q: usize,
    c: Constraint,
)
    ensures emits { let s = scope.now in Fits s depth q → Emits (env_in s) depth (emit_source (env_in s) (bindings_of s) (bound_in s) q (constraint_told c)) w.old (set_of refs.old) w.new (set_of refs.new) }
    ensures same { SameSink w.old w.new }
{
    put_borrow(w, wants_ref(c), contains(refs, q));
    emit_expr(w, refs, scope, depth, q);
}
