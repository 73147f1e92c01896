// Refusal 6: a binding's or arm's list length differs from what it names.
ghost use Rattle.std.specs.Prelude.{◌≡◌, List, ℕ};
ghost use Rattle.plan.specs.Lookup.{type_at, variant_at, fields_of, field_count};
ghost use Rattle.plan.specs.Refusal.{source_count, pattern_count, arm_length_fits, lengths_fit};
ghost use Rattle.rows.specs.View.{binding_of, block_of};
ghost use Rattle.view.specs.Buffers.{words_of, env_of, plan_of};
ghost use Rattle.view.specs.Tables.{plan_in};
ghost use Rattle.view.specs.Told.{binding_told, constraint_told};
ghost use Rattle.checks.specs.Tests.{generated_of};
ghost use Rattle.exists.specs.Ready.{binding_length_fits, generated_fits};

use super::counts::argument_count;
use super::indexed::Indexed;
use checks::tables::{GeneratedTables, all_generated, all_rows};
use view::binding::Binding;
use view::block::Constraint;
use view::buffers::Plan;
use view::heads::{BINDING_HEAD, BLOCK_HEAD};
use view::tables::VARIANTS;

// How many fields the type n has. A `match`: `map_or` was tried, but says nothing of what a closure answers that holds the plan.
#[tactic(auto, using(crate::proofs::Sorts::fields_undeclared))]
fn struct_fields(plan: &Plan<'_, '_, '_>, n: usize) -> usize
    ensures { result ≡ field_count (fields_of (type_at (env_of plan.now) n)) }
{
    match plan.type_row(n) {
        Some(r) => plan.type_field_count(r),
        None => 0,
    }
}

// How many fields the variant k of a type has that has no place in the index.
fn scan_fields(plan: &Plan<'_, '_, '_>, n: usize, k: usize) -> usize
    ensures { result ≡ field_count (variant_at (env_of plan.now) n k).fields }
{
    plan.row_range(VARIANTS)
        .filter(|r| plan.word(*r, 0) == n)
        .map(|r| plan.variant_field_count(r))
        .nth(k)
        .unwrap_or(0)
}

// How many fields the variant k of the type n has.
#[tactic(auto, using(crate::proofs::Sorts::fields_none, crate::proofs::Sorts::fields_found))]
fn variant_fields(indexed: &Indexed<'_>, n: usize, k: usize) -> usize
    ensures { result ≡ field_count (variant_at (env_of indexed.now.plan) n k).fields }
{
    let plan = &indexed.plan;
    if 256 <= n {
        scan_fields(plan, n, k)
    } else if k < plan.variant_count(n) {
        plan.variant_field_count(plan.variant_row(n, k))
    } else {
        0
    }
}

// How many sources a binding has.
#[tactic(auto, unfolding(plan::specs::Refusal::source_count))]
fn source_count(indexed: &Indexed<'_>, b: Binding) -> usize
    ensures { result ≡ source_count (env_of indexed.now.plan) (binding_told b) }
{
    let plan = &indexed.plan;
    match b {
        Binding::ConstBool { .. }
        | Binding::ConstInt { .. }
        | Binding::ConstPrim { .. }
        | Binding::Argument { .. } => 0,
        Binding::Constructor { term } => argument_count(plan, term),
        Binding::MakeVariant { ty, variant } => variant_fields(indexed, ty, variant),
        Binding::MakeStruct { ty } => struct_fields(plan, ty),
        _ => 1,
    }
}

// How many bindings an arm has.
#[tactic(auto, unfolding(plan::specs::Refusal::pattern_count))]
fn pattern_count(indexed: &Indexed<'_>, c: Constraint) -> usize
    ensures { result ≡ pattern_count (env_of indexed.now.plan) (constraint_told c) }
{
    match c {
        Constraint::Variant { ty, variant } => variant_fields(indexed, ty, variant),
        Constraint::Struct { ty } => struct_fields(&indexed.plan, ty),
        Constraint::Some => 1,
        _ => 0,
    }
}

// Whether the list of row r has the length that its binding asks for.
#[tactic(auto, unfolding(rows::specs::View::binding_of))]
fn binding_fits(indexed: &Indexed<'_>, r: usize) -> bool
    ensures { result ≡ binding_length_fits (env_of indexed.now.plan) (binding_of (words_of indexed.now.plan r)) }
{
    let b = indexed.plan.binding_at(r);
    indexed.plan.list(r, BINDING_HEAD).len() == source_count(indexed, b)
}

// Whether row r is a step, or its list has the length that its arm asks for.
#[tactic(auto, using(crate::proofs::Rows::step_length, crate::proofs::Rows::arm_length))]
fn arm_fits(indexed: &Indexed<'_>, r: usize) -> bool
    ensures { result ≡ arm_length_fits (env_of indexed.now.plan) (block_of (words_of indexed.now.plan r)) }
{
    let plan = &indexed.plan;
    plan.is_step(r)
        || plan.list(r, BLOCK_HEAD).len() == pattern_count(indexed, plan.constraint_at(r))
}

// Whether the lists of a generated term's bindings and block have the lengths that are asked for.
#[tactic(auto, using(crate::proofs::Rows::fits_tests))]
fn generated_fits(indexed: &Indexed<'_>, g: GeneratedTables) -> bool
    ensures { result ≡ generated_fits (env_of indexed.now.plan) (generated_of indexed.now.plan g) }
{
    let plan = &indexed.plan;
    all_rows(plan, g.bindings, |r| binding_fits(indexed, r))
        && all_rows(plan, g.block, |r| arm_fits(indexed, r))
}

#[tactic(auto, using(crate::proofs::Bytes::fit_any, crate::proofs::Rows::fits_plan))]
pub fn lengths_fit(indexed: &Indexed<'_>) -> bool
    ensures own { result ≡ lengths_fit (plan_of indexed.now.plan) }
    ensures any { (bytes : List ℕ) → let p = indexed.now.plan in result ≡ lengths_fit (plan_in bytes p.words.now p.rows.now p.tables.now) }
{
    all_generated(&indexed.plan, |g| generated_fits(indexed, g))
}
