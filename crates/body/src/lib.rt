// A generated term while its rows are written: what does not change (specs/Told.antt says of which `Body` of the definition), its
// expressions, and what it is for code to write a row's lines into a sink (specs/Lines.antt, specs/Own.antt).
#![tactic(auto)]

ghost use Rattle.codegen.specs.Expr.{emit_expr, emit_source};
ghost use Rattle.view.specs.Told.{constraint_told};
ghost use Rattle.emits.specs.Marks.{set_of};
ghost use Rattle.body.specs.Told.{env_in, bindings_of};
ghost use Rattle.body.specs.Words.{HasDepth, WritesWords};

use expr::Scope;
use sema::signature::ReturnKind;
use text::sink::Sink;
use view::bindings::Bindings;
use view::block::Constraint;

// Arms that weigh more than the threshold split; where there is none, none does.
// Beside a sink and marks a body stays a parameter of its own: it is only read, and of one value that is lent for writing each contract
// would have to say that the body stays. So do a sink and a plan.
// The marks that are lent with it travel together, too. They stay apart: two lent slices as one value were tried, and its fields side by side
// in a call are "a place behind a reference that is lent used in a way that has no rule yet"; `BodyContext` would narrow them to 1,024.
// That the variants are indexed is a premise of the clauses (`Fits` in specs/Told.antt) and no type's invariant: that would ask it of
// callers which have a plan that is not judged yet.
#[derive(Clone, Copy)]
pub struct Body<'a> {
    pub bindings: Bindings<'a>,
    pub log: bool,
    pub ret_kind: ReturnKind,
    pub term_name: usize,
    pub threshold: Option<usize>,
}

impl Body<'_> {
    // The expression of the term's binding b, on a line of this depth.
    pub fn emit_expr(
        &self,
        w: &mut Sink<'_>,
        refs: &mut [bool],
        bound: &[bool],
        depth: usize,
        b: usize,
    )
        ensures { let t = self.now in WritesWords (HasDepth depth b) t depth (emit_expr (env_in t) (bindings_of t) (set_of bound.now) b) w.old refs.old w.new refs.new }
    {
        let bindings = self.bindings;
        expr::emit_expr(w, refs, &Scope { bindings, bound }, depth, b);
    }

    // The source q of a match whose first arm has the constraint k, on such a line.
    pub fn emit_source(
        &self,
        w: &mut Sink<'_>,
        refs: &mut [bool],
        bound: &[bool],
        depth: usize,
        q: usize,
        k: Constraint,
    )
        ensures { let t = self.now in WritesWords (HasDepth depth q) t depth (emit_source (env_in t) (bindings_of t) (set_of bound.now) q (constraint_told k)) w.old refs.old w.new refs.new }
    {
        let bindings = self.bindings;
        expr::emit_source(w, refs, &Scope { bindings, bound }, depth, q, k);
    }
}
