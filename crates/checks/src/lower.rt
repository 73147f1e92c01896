// Refusal 7: a source not lower than its binding; two `arg` of one index.
ghost use Rattle.std.specs.Prelude.{◌≡◌, true, false, ◌&&◌, map, replicate, List, ℕ};
ghost use Rattle.plan.specs.Lookup.{argument_index};
ghost use Rattle.plan.specs.Refusal.{sources_below, sources_lower};
ghost use Rattle.rows.specs.View.{binding_of};
ghost use Rattle.view.specs.Buffers.{rows_of, plan_of};
ghost use Rattle.view.specs.Tables.{plan_in};
ghost use Rattle.view.specs.Told.{binding_told};
ghost use Rattle.checks.specs.Within.{mark_new, marked, marks_new, arguments_few};

use super::list::list_below;
use super::tables::all_generated;
use view::binding::Binding;
use view::buffers::Plan;
use view::heads::BINDING_HEAD;

// Whether each source of the bindings of table t is a lower binding.
fn all_below(plan: &Plan<'_, '_, '_>, t: usize) -> bool
    ensures { result ≡ sources_below 0 (map binding_of (rows_of plan.now t)) }
{
    plan.row_range(t)
        .enumerate()
        .all(|(i, r)| list_below(plan.list(r, BINDING_HEAD), i))
}

// Whether a binding stands for no argument or for one that isn't marked yet; it is from then on, if it has a mark. `insert` of `emits` does
// the same for a number: it stands on the definition of the text, of which the refusals know nothing.
#[tactic(auto, using(crate::proofs::Marks::no_argument))]
fn is_new(marks: &mut [bool], b: Binding) -> bool
    ensures fresh { result ≡ mark_new marks.old (argument_index (binding_told b)) }
    ensures marked { marks.new ≡ marked marks.old (argument_index (binding_told b)) }
{
    match b {
        Binding::Argument { index } => index >= marks.len()
            || !std::mem::replace(&mut marks[index], true),
        _ => true,
    }
}

// Whether no two bindings of table t are one argument below 32.
fn all_distinct(plan: &Plan<'_, '_, '_>, t: usize) -> bool
    ensures { result ≡ marks_new (replicate 32 false) (map binding_of (rows_of plan.now t)) }
{
    let mut marks = [false; 32];
    plan.row_range(t)
        .all(|r| is_new(&mut marks, plan.binding_at(r)))
}

// Refusal 7 of the bindings of table t.
fn bindings_lower(plan: &Plan<'_, '_, '_>, t: usize) -> bool
    ensures { result ≡ (sources_below 0 (map binding_of (rows_of plan.now t)) && marks_new (replicate 32 false) (map binding_of (rows_of plan.now t))) }
{
    all_below(plan, t) && all_distinct(plan, t)
}

// One line over the chain of `tables`: as at `arms::block_armed`, what differs is the test alone, and a function of those lines would be another
// such chain.
pub fn sources_lower(plan: &Plan<'_, '_, '_>) -> bool
    ensures own { arguments_few (plan_of plan.now) ≡ true → result ≡ sources_lower (plan_of plan.now) }
    ensures any { (bytes : List ℕ) → let p = plan_in bytes plan.now.words.now plan.now.rows.now plan.now.tables.now in arguments_few p ≡ true → result ≡ sources_lower p }
{
    all_generated(plan, |g| bindings_lower(plan, g.bindings))
}
