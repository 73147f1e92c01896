// Tests of each row of a table, and of each generated term.
ghost use Rattle.std.specs.Prelude.{◌≡◌, ◌+◌, ◌-◌, ◌*◌, ◌/◌, ◌^◌, ◌<◌, Bool, List, ℕ, ltb, length, drop};
ghost use Rattle.plan.specs.Plan.{Generated};
ghost use Rattle.plan.specs.Refusal.{every};
ghost use Rattle.view.specs.Buffers.{words_of, rows_of, plan_of};
ghost use Rattle.checks.specs.Tests.{Tests, tables_at, generated_of};

use view::buffers::Plan;
use view::tables::GENERATED;

// The tables of a generated term: its number, its bindings and its block.
#[derive(Clone, Copy)]
pub struct GeneratedTables {
    pub term: usize,
    pub bindings: usize,
    pub block: usize,
}

impl GeneratedTables {
    // The number of the term.
    pub fn number(self, plan: &Plan<'_, '_, '_>) -> usize
        ensures { result ≡ (generated_of plan.now self).term }
    {
        plan.word(plan.row_at(self.term, 0), 0)
    }
}

// The tables of generated term i: three each.
pub fn generated_tables(i: usize) -> GeneratedTables
    requires { i < 2 ^ 62 }
    ensures { result ≡ tables_at i }
{
    let term = GENERATED + 3 * i;
    GeneratedTables {
        term,
        bindings: term + 1,
        block: term + 2,
    }
}

// How many generated terms there are: `tables` has an entry more than there are tables.
#[tactic(auto, using(crate::specs::Terms::terms_count))]
pub fn generated_count(plan: &Plan<'_, '_, '_>) -> usize
    ensures count { result ≡ length (plan_of plan.now).generated }
    ensures few { result < 2 ^ 62 }
{
    plan.tables.len().saturating_sub(8) / 3
}

// Whether each generated term passes a test.
pub fn all_generated<F: Fn(GeneratedTables) -> bool>(plan: &Plan<'_, '_, '_>, test: F) -> bool
    requires { F.IsAlwaysCallable test }
    ensures { (P : Generated → Bool) → Tests (F.post test) (generated_of plan.now) P → result ≡ every P (plan_of plan.now).generated }
{
    (0..generated_count(plan)).map(generated_tables).all(test)
}

// Whether each row of table t passes a test.
pub fn all_rows<F: Fn(usize) -> bool>(plan: &Plan<'_, '_, '_>, t: usize, test: F) -> bool
    requires { F.IsAlwaysCallable test }
    ensures { (P : List ℕ → Bool) → Tests (F.post test) (words_of plan.now) P → result ≡ every P (rows_of plan.now t) }
{
    plan.row_range(t).all(test)
}
