// Refusal 4: a table, level or list over its most.
ghost use Rattle.std.specs.Prelude.{◌≡◌, List, ℕ};
ghost use Rattle.plan.specs.Refusal.{environment_most, generated_most, row_most, within_most};
ghost use Rattle.rows.specs.View.{block_of};
ghost use Rattle.view.specs.Buffers.{words_of, env_of, plan_of};
ghost use Rattle.view.specs.Tables.{plan_in};
ghost use Rattle.checks.specs.Tests.{generated_of};
ghost use Rattle.checks.specs.Within.{counts_most};

use super::tables::{GeneratedTables, all_generated, all_rows, generated_count};
use literal::builtin_type::BuiltinType;
use view::buffers::Plan;
use view::heads::{BINDING_HEAD, BLOCK_HEAD, TERM_HEAD};
use view::tables::{FILES, POSS, SYMS, TERMS, TYPES, VARIANTS};

// The most values that a list has, and the highest level.
const LIST_MOST: usize = 32;

const LEVEL_MOST: usize = 63;

// Whether the tables of the environment are within their most: 256 types with the builtins.
fn counts_within(plan: &Plan<'_, '_, '_>) -> bool
    ensures { result ≡ counts_most (env_of plan.now) }
{
    let most = [
        (FILES, 64),
        (SYMS, 2048),
        (POSS, 2048),
        (TYPES, 256 - BuiltinType::COUNT),
        (VARIANTS, 1024),
        (TERMS, 512),
    ];
    most.iter().all(|(t, n)| plan.row_count(*t) <= *n)
}

// Whether the tables of the environment, and their lists, are within their most.
#[tactic(auto, using(crate::proofs::Counts::environment_tests))]
fn environment_within(plan: &Plan<'_, '_, '_>) -> bool
    ensures { result ≡ environment_most (env_of plan.now) }
{
    counts_within(plan)
        && all_rows(plan, TYPES, |r| plan.type_field_count(r) <= LIST_MOST)
        && all_rows(plan, VARIANTS, |r| plan.variant_field_count(r) <= LIST_MOST)
        && all_rows(plan, TERMS, |r| plan.list(r, TERM_HEAD).len() <= LIST_MOST)
}

// Whether the level and the list of row r, of a block, are within their most.
#[tactic(auto, using(crate::proofs::Counts::row_within))]
fn row_within(plan: &Plan<'_, '_, '_>, r: usize) -> bool
    ensures { result ≡ row_most (block_of (words_of plan.now r)) }
{
    plan.word(r, 0) <= LEVEL_MOST && plan.list(r, BLOCK_HEAD).len() <= LIST_MOST
}

// Whether the bindings and the block of a generated term are within their most.
#[tactic(auto, using(crate::proofs::Counts::generated_tests))]
fn generated_within(plan: &Plan<'_, '_, '_>, g: GeneratedTables) -> bool
    ensures { result ≡ generated_most (generated_of plan.now g) }
{
    plan.row_count(g.bindings) <= 1024
        && plan.row_count(g.block) <= 2048
        && all_rows(
            plan,
            g.bindings,
            |r| plan.list(r, BINDING_HEAD).len() <= LIST_MOST,
        )
        && all_rows(plan, g.block, |r| row_within(plan, r))
}

#[tactic(auto, using(crate::proofs::Counts::within_tests, crate::proofs::Bytes::most_any))]
pub fn within_most(plan: &Plan<'_, '_, '_>) -> bool
    ensures own { result ≡ within_most (plan_of plan.now) }
    ensures any { (bytes : List ℕ) → result ≡ within_most (plan_in bytes plan.now.words.now plan.now.rows.now plan.now.tables.now) }
{
    environment_within(plan)
        && generated_count(plan) <= 64
        && all_generated(plan, |g| generated_within(plan, g))
}
