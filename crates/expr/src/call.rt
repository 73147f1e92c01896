// Calls: an extractor and a constructor are called alike and differ in the signature alone, codegen.rs 694 and 922.
ghost use Rattle.std.specs.Prelude.{◌≡◌};
ghost use Rattle.view.specs.Buffers.{env_of};
ghost use Rattle.view.specs.Told.{binding_told};
ghost use Rattle.expr.specs.Call.{called, called_told};

use sema::signature::{ExternalSig, TermId};
use view::binding::Binding;
use view::buffers::Plan;

// The signature of what a binding calls, if it calls something.
pub fn called(plan: &Plan<'_, '_, '_>, binding: Binding) -> Option<ExternalSig>
    ensures { let env = env_of plan.now in called_told env result ≡ called env (binding_told binding) }
{
    match binding {
        Binding::Extractor { term } => Some(TermId(term).extractor_sig(plan)),
        Binding::Constructor { term } => Some(TermId(term).constructor_sig(plan)),
        _ => None,
    }
}
