// The arguments of a generated term that are references: codegen.rs 554 to 566.
// The rows of the term's bindings are given by two numbers: a `Range` is not `Copy`, so each argument would clone it.
ghost use Rattle.std.specs.Prelude.{◌≡◌, cond};
ghost use Rattle.codegen.specs.Writer.{Marks};
ghost use Rattle.codegen.specs.Sema.{is_ref};
ghost use Rattle.codegen.specs.Terms.{mark_argument, argument_refs};
ghost use Rattle.view.specs.Buffers.{env_of};
ghost use Rattle.emits.specs.Marks.{set_of};
ghost use Rattle.sema.specs.Signature.{sig_told};
ghost use Rattle.context.specs.Context.{SameButRefs};
ghost use Rattle.constructors.specs.Arguments.{bindings_in, argument_at, found_mark};

use context::body_context::BodyContext;
use sema::signature::ExternalSig;
use sema::types::TypeId;
use view::binding::Binding;
use view::buffers::Plan;

// Is the binding of row r argument i?
fn is_argument(plan: &Plan<'_, '_, '_>, r: usize, i: usize) -> bool
    ensures { result ≡ argument_at plan.now i r }
{
    matches!(plan.binding_at(r), Binding::Argument { index } if i == index)
}

// `find_binding` of trie_again.rs 292: the binding of argument i, among the bindings from row `first` up to row `last`.
pub fn find_binding(plan: &Plan<'_, '_, '_>, first: usize, last: usize, i: usize) -> Option<usize>
    ensures { (m : Marks) → mark_argument i 0 (bindings_in plan.now last first) m ≡ found_mark result m }
{
    (first..last).position(|r| is_argument(plan, r, i))
}

// Argument i, of the type ty, is marked if it is a reference.
fn mark_argument(
    plan: &Plan<'_, '_, '_>,
    first: usize,
    last: usize,
    i: usize,
    ty: TypeId,
    context: &mut BodyContext,
)
    ensures refs { set_of context.new.is_ref ≡ cond (is_ref (env_of plan.now) ty.0) (mark_argument i 0 (bindings_in plan.now last first) (set_of context.old.is_ref)) (set_of context.old.is_ref) }
    ensures same { SameButRefs context.old context.new }
{
    if !ty.is_ref(plan) {
        return;
    }
    if let Some(binding) = find_binding(plan, first, last, i) {
        context.set_ref(binding, true);
    }
}

// The arguments that are references are marked; the term's bindings are those from row `first` up to row `last`.
pub fn argument_refs(
    plan: &Plan<'_, '_, '_>,
    first: usize,
    last: usize,
    sig: ExternalSig,
    context: &mut BodyContext,
)
    ensures refs { let env = env_of plan.now in set_of context.new.is_ref ≡ argument_refs env (bindings_in plan.now last first) 0 (sig_told env sig).param_tys (set_of context.old.is_ref) }
    ensures same { SameButRefs context.old context.new }
{
    // By number: `param_ty` makes a `TypeId` of a word, which a loop over the words would do itself.
    for i in 0..sig.param_count(plan) {
        mark_argument(plan, first, last, i, sig.param_ty(plan, i), context);
    }
}
