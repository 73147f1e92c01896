// `emit_expr` of codegen.rs 915, as it calls itself: a binding that has no name is written through its sources.
// A plan can nest 1,024 bindings in one another, so one function serves all kinds, and all that it need not hold while a source is
// written stands in `begin` and `go_on`, which are not compiled into it. What does not change is one value, and so is how far a binding is
// written, so that a call holds few numbers.
ghost use Rattle.std.specs.Prelude.{suc};
ghost use Rattle.emits.specs.Marks.{set_of};
ghost use Rattle.expr.specs.Writes.{Writes};

use super::Scope;
use super::between::Expression;
use emits::stablemapset::contains;
use text::sink::Sink;

// The expression of binding b, whose own lines are `depth` deep. Each source is asked about before it is written. A source's number is
// below its binding's, so the calls end whatever the buffers hold.
pub fn emit_below(w: &mut Sink<'_>, refs: &mut [bool], scope: &Scope<'_>, depth: usize, b: usize)
    ensures { Writes scope.now depth b (suc b) (λ rec d. rec d b) w.old (set_of refs.old) w.new (set_of refs.new) }
{
    let mut expression = Expression {
        binding: b,
        depth,
        written: 0,
    };
    // No iterator: which source is next is known when the one before it is written.
    let mut next = expression.begin(w, refs, scope);
    while let Some(source) = next {
        let given = contains(refs, source.binding);
        emit_below(w, refs, scope, source.depth, source.binding);
        next = expression.go_on(w, refs, scope, given);
    }
}
