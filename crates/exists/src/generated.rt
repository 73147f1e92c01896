// Refusal 5: what a plan names exists, and is of the sort that is asked for.
ghost use Rattle.std.specs.Prelude.{◌≡◌, true, false, ◌&&◌, List, ℕ};
ghost use Rattle.plan.specs.Refusal.{every, binding_refers, constraint_refers, control_flow_refers, row_refers, generated_refers, all_exist};
ghost use Rattle.rows.specs.View.{binding_of, block_of};
ghost use Rattle.view.specs.Buffers.{words_of, rows_of, env_of, plan_of};
ghost use Rattle.view.specs.Tables.{plan_in};
ghost use Rattle.view.specs.Told.{binding_told, constraint_told, control_flow_told};
ghost use Rattle.checks.specs.Tests.{generated_of};
ghost use Rattle.exists.specs.Ready.{binding_row_refers};

use super::counts::{
    argument_count, constructor_exists, extractor_exists, pos_count, struct_exists, sym_count,
    type_count, variant_exists,
};
use super::environment::{term_refers, type_refers, variant_refers};
use super::indexed::Indexed;
use checks::list::{list_below, patterns_below};
use checks::tables::{GeneratedTables, all_generated, all_rows};
use view::binding::Binding;
use view::block::{Constraint, ControlFlow};
use view::buffers::Plan;
use view::heads::{BINDING_HEAD, BLOCK_HEAD};
use view::tables::{TERMS, TYPES, VARIANTS};

// Whether all that a binding names exists, its sources aside; `args` is how many arguments the generated term has.
#[tactic(auto, unfolding(plan::specs::Refusal::binding_refers))]
fn binding_refers(indexed: &Indexed<'_>, args: usize, b: Binding) -> bool
    ensures { result ≡ binding_refers (env_of indexed.now.plan) args (binding_told b) }
{
    let plan = &indexed.plan;
    match b {
        Binding::ConstInt { ty, .. } => ty < type_count(plan),
        Binding::ConstPrim { val } => val < sym_count(plan),
        Binding::Argument { index } => index < args,
        Binding::Extractor { term } => extractor_exists(plan, term),
        Binding::Constructor { term } => constructor_exists(plan, term),
        Binding::MakeVariant { ty, variant } => variant_exists(indexed, ty, variant),
        Binding::MakeStruct { ty } => struct_exists(plan, ty),
        _ => true,
    }
}

#[tactic(auto, unfolding(plan::specs::Refusal::constraint_refers))]
fn constraint_refers(indexed: &Indexed<'_>, c: Constraint) -> bool
    ensures { result ≡ constraint_refers (env_of indexed.now.plan) (constraint_told c) }
{
    let plan = &indexed.plan;
    match c {
        Constraint::ConstInt { ty, .. } => ty < type_count(plan),
        Constraint::ConstPrim { val } => val < sym_count(plan),
        Constraint::Variant { ty, variant } => variant_exists(indexed, ty, variant),
        Constraint::Struct { ty } => struct_exists(plan, ty),
        _ => true,
    }
}

// Whether all that a step names exists, its `bind_order` aside; n is the number of bindings.
#[tactic(auto, unfolding(plan::specs::Refusal::control_flow_refers))]
fn control_flow_refers(plan: &Plan<'_, '_, '_>, n: usize, c: ControlFlow) -> bool
    ensures { result ≡ control_flow_refers (env_of plan.now) n (control_flow_told c) }
{
    match c {
        ControlFlow::Match { source } => source < n,
        ControlFlow::Equal { a, b } => a < n && b < n,
        ControlFlow::Loop { result } => result < n,
        ControlFlow::Return { result, pos } => result < n && pos < pos_count(plan),
    }
}

#[tactic(auto, unfolding(rows::specs::View::binding_of))]
fn binding_row_refers(indexed: &Indexed<'_>, args: usize, n: usize, r: usize) -> bool
    ensures { result ≡ binding_row_refers (env_of indexed.now.plan) args n (binding_of (words_of indexed.now.plan r)) }
{
    let b = indexed.plan.binding_at(r);
    binding_refers(indexed, args, b) && list_below(indexed.plan.list(r, BINDING_HEAD), n)
}

#[tactic(auto, unfolding(plan::specs::Refusal::row_refers, rows::specs::View::block_of))]
fn block_row_refers(indexed: &Indexed<'_>, n: usize, r: usize) -> bool
    ensures { result ≡ row_refers (env_of indexed.now.plan) n (block_of (words_of indexed.now.plan r)) }
{
    let plan = &indexed.plan;
    if plan.is_step(r) {
        control_flow_refers(plan, n, plan.control_flow_at(r))
            && list_below(plan.list(r, BLOCK_HEAD), n)
    } else {
        constraint_refers(indexed, plan.constraint_at(r))
            && patterns_below(plan.list(r, BLOCK_HEAD), n)
    }
}

// Whether all that the bindings and the block of a generated term name exists. The two calls stand in `generated_fits` and in `checks::most`, too: a
// function of both closures would ask for the law of each, and say no more.
fn rows_refer(indexed: &Indexed<'_>, g: GeneratedTables, args: usize, n: usize) -> bool
    ensures { result ≡ (every (λ ws. binding_row_refers (env_of indexed.now.plan) args n (binding_of ws)) (rows_of indexed.now.plan g.bindings)
        && every (λ ws. row_refers (env_of indexed.now.plan) n (block_of ws)) (rows_of indexed.now.plan g.block)) }
{
    let plan = &indexed.plan;
    all_rows(
        plan,
        g.bindings,
        |r| binding_row_refers(indexed, args, n, r),
    ) && all_rows(plan, g.block, |r| block_row_refers(indexed, n, r))
}

// Whether all that a generated term names exists.
#[tactic(auto, using(crate::proofs::Rows::generated_tests))]
fn generated_refers(indexed: &Indexed<'_>, g: GeneratedTables) -> bool
    ensures { result ≡ generated_refers (env_of indexed.now.plan) (generated_of indexed.now.plan g) }
{
    let plan = &indexed.plan;
    let m = g.number(plan);
    let args = argument_count(plan, m);
    constructor_exists(plan, m) && rows_refer(indexed, g, args, plan.row_count(g.bindings))
}

#[tactic(auto, using(crate::proofs::Bytes::exist_any, crate::proofs::Rows::exist_tests))]
pub fn all_exist(indexed: &Indexed<'_>) -> bool
    ensures own { result ≡ all_exist (plan_of indexed.now.plan) }
    ensures any { (bytes : List ℕ) → let p = indexed.now.plan in result ≡ all_exist (plan_in bytes p.words.now p.rows.now p.tables.now) }
{
    let plan = &indexed.plan;
    all_rows(plan, TYPES, |r| type_refers(plan, r))
        && all_rows(plan, VARIANTS, |r| variant_refers(plan, r))
        && all_rows(plan, TERMS, |r| term_refers(plan, r))
        && all_generated(plan, |g| generated_refers(indexed, g))
}
