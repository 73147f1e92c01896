// Refusal 10: a `loop` whose result is no `iter`.
ghost use Rattle.std.specs.Prelude.{◌≡◌, List, ℕ};
ghost use Rattle.plan.specs.Refusal.{every, is_iterator, loop_fits, loops_iterate};
ghost use Rattle.rows.specs.View.{block_of};
ghost use Rattle.view.specs.Buffers.{words_of, bindings_in, plan_of};
ghost use Rattle.view.specs.Tables.{plan_in};
ghost use Rattle.view.specs.Told.{binding_told};
ghost use Rattle.checks.specs.Tests.{generated_of};

use super::tables::{GeneratedTables, all_generated, all_rows};
use view::binding::Binding;
use view::bindings::Bindings;
use view::block::ControlFlow;
use view::buffers::Plan;

fn is_iterator(b: Binding) -> bool
    ensures { result ≡ is_iterator (binding_told b) }
{
    matches!(b, Binding::Iterator)
}

// Whether row r is no loop, or goes over an `iter` of these bindings.
#[tactic(auto, using(crate::proofs::Blocks::arm_fits, crate::proofs::Blocks::fits_loop))]
fn is_iterated(bindings: &Bindings<'_>, r: usize) -> bool
    ensures { result ≡ loop_fits (bindings_in bindings.now.plan.now bindings.now.table) (block_of (words_of bindings.now.plan.now r)) }
{
    let plan = bindings.plan;
    if !plan.is_step(r) {
        return true;
    }
    match plan.control_flow_at(r) {
        ControlFlow::Loop { result } => is_iterator(bindings.binding(result)),
        _ => true,
    }
}

// Whether each loop of a generated term goes over an `iter` of its bindings.
#[tactic(auto, using(crate::proofs::Blocks::iterates_at))]
fn block_iterates(plan: &Plan<'_, '_, '_>, g: GeneratedTables) -> bool
    ensures { result ≡ every (loop_fits (generated_of plan.now g).bindings) (generated_of plan.now g).rows }
{
    let bindings = Bindings {
        plan,
        table: g.bindings,
    };
    all_rows(plan, g.block, |r| is_iterated(&bindings, r))
}

#[tactic(auto, using(crate::proofs::Bytes::loops_any), unfolding(plan::specs::Refusal::loops_iterate))]
pub fn loops_iterate(plan: &Plan<'_, '_, '_>) -> bool
    ensures own { result ≡ loops_iterate (plan_of plan.now) }
    ensures any { (bytes : List ℕ) → result ≡ loops_iterate (plan_in bytes plan.now.words.now plan.now.rows.now plan.now.tables.now) }
{
    all_generated(plan, |g| block_iterates(plan, g))
}
