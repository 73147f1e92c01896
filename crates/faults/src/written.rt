// Questions about the written expressions of the bindings of a table.
ghost use Rattle.std.specs.Prelude.{◌≡◌, ◌<◌};
ghost use Rattle.plan.specs.Lookup.{binding_at};
ghost use Rattle.view.specs.Buffers.{env_of};
ghost use Rattle.schedule_rules.specs.Faults.{any, returns_many};
ghost use Rattle.faults.specs.Kept.{bindings_of, name_asked, call_asked, Finds};

use super::kept::Kept;
use emits::stablemapset::contains;
use view::binding::Binding;
use view::bindings::Bindings;

// What is asked of an expression where the bindings `bound` have names: with `before`, whether it holds a name that is not among those;
// else whether it holds a call that returns many.
#[derive(Clone, Copy)]
pub struct Question<'a> {
    pub bound: &'a [bool],
    pub before: Option<&'a [bool]>,
}

// Whether binding b is a call that returns many: `extract` or `construct` of such a term.
#[tactic(auto, using(crate::proofs::ExprLaws::many_called, crate::proofs::ExprLaws::many_other))]
fn returns_many(bindings: &Bindings<'_>, b: usize) -> bool
    ensures { result ≡ returns_many (env_of bindings.now.plan.now) (binding_at (bindings_of bindings.now) b).binding }
{
    match bindings.binding(b) {
        Binding::Extractor { term } | Binding::Constructor { term } => bindings.plan.is_multi(term),
        _ => false,
    }
}

impl Question<'_> {
    // Whether the name of binding b is asked for.
    #[tactic(auto, unfolding(crate::specs::Kept::asked_name))]
    fn asks_name(&self, b: usize) -> bool
        ensures { result ≡ name_asked self.now b }
    {
        self.before.is_some_and(|before| !contains(before, b))
    }

    // Whether binding b is a call that is asked for.
    #[tactic(auto, unfolding(crate::specs::Kept::asked_call))]
    fn asks_call(&self, bindings: &Bindings<'_>, b: usize) -> bool
        ensures { result ≡ call_asked self.now bindings.now b }
    {
        self.before.is_none() && returns_many(bindings, b)
    }
}

// Whether the written expression of binding b holds what is asked for. A binding that has a name is written as it, any other through its
// sources.
#[cycle(expr_holds_source_holds)]
pub fn expr_holds(
    kept: &mut Kept<'_>,
    question: &Question<'_>,
    bindings: &Bindings<'_>,
    b: usize,
) -> bool
    requires { kept.old.number < 4294967295 }
    ensures { Finds question.now bindings.now (λ f. f b) kept.old kept.new result }
{
    if contains(question.bound, b) {
        return question.asks_name(b);
    }
    if let Some(answer) = kept.answer(b) {
        return answer;
    }
    if question.asks_call(bindings, b) {
        kept.keep(b, true);
        return true;
    }
    let yes = source_holds(kept, question, bindings, b);
    kept.keep(b, yes);
    yes
}

// Whether the written expression of a source of binding b does. A source's number is below its binding's: this is tested before each
// call, so that the calls end whatever the buffers hold.
#[cycle(expr_holds_source_holds)]
pub fn source_holds(
    kept: &mut Kept<'_>,
    question: &Question<'_>,
    bindings: &Bindings<'_>,
    b: usize,
) -> bool
    requires { kept.old.number < 4294967295 }
    ensures { Finds question.now bindings.now (λ f. any f (binding_at (bindings_of bindings.now) b).sources) kept.old kept.new result }
{
    for word in bindings.sources(b) {
        let q = *word as usize;
        if b <= q {
            continue;
        }
        if expr_holds(kept, question, bindings, q) {
            return true;
        }
    }
    false
}
