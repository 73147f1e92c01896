// How many rows a plan's tables have, and which of them a number stands for. Each count names its table: one function with the
// table as its parameter is `Plan::row_count`.
ghost use Rattle.std.specs.Prelude.{◌≡◌, true, false, ◌&&◌, ℕ, ◌<◌, [], ltb, length, get_or, List};
ghost use Rattle.plan.specs.Lookup.{term_at};
ghost use Rattle.plan.specs.Refusal.{is_present, enum_exists, struct_exists, variant_exists, constructor_exists, extractor_exists};
ghost use Rattle.rows.specs.View.{nth, function_of};
ghost use Rattle.view.specs.Buffers.{rows_of, env_of};
ghost use Rattle.view.specs.Tables.{environment_in};
ghost use Rattle.view.specs.Told.{function_told};
ghost use Rattle.exists.specs.Ready.{Declares};

use super::indexed::Indexed;
use literal::builtin_type::BuiltinType;
use view::buffers::Plan;
use view::environment::{FunctionKind, TypeData};
use view::heads::TERM_HEAD;
use view::tables::{POSS, SYMS, TERMS, TYPES};

#[tactic(auto, using(view::proofs::Plans::syms_count))]
pub fn sym_count(plan: &Plan<'_, '_, '_>) -> usize
    ensures own { result ≡ length (env_of plan.now).syms }
    ensures any { (bytes words rows : List ℕ) → result ≡ length (environment_in bytes words rows plan.now.tables.now).syms }
{
    plan.row_count(SYMS)
}

#[tactic(auto, using(view::proofs::Plans::poss_count))]
pub fn pos_count(plan: &Plan<'_, '_, '_>) -> usize
    ensures own { result ≡ length (env_of plan.now).poss }
    ensures any { (bytes words rows : List ℕ) → result ≡ length (environment_in bytes words rows plan.now.tables.now).poss }
{
    plan.row_count(POSS)
}

#[tactic(auto, using(view::proofs::Plans::types_count))]
pub fn type_count(plan: &Plan<'_, '_, '_>) -> usize
    ensures own { result ≡ length (env_of plan.now).types }
    ensures any { (bytes words rows : List ℕ) → result ≡ length (environment_in bytes words rows plan.now.tables.now).types }
{
    BuiltinType::COUNT + plan.row_count(TYPES)
}

#[tactic(auto, using(view::proofs::Plans::terms_count))]
pub fn term_count(plan: &Plan<'_, '_, '_>) -> usize
    ensures own { result ≡ length (env_of plan.now).terms }
    ensures any { (bytes words rows : List ℕ) → result ≡ length (environment_in bytes words rows plan.now.tables.now).terms }
{
    plan.row_count(TERMS)
}

// How many arguments the term m has.
#[tactic(auto, using(view::proofs::Plans::term_is), unfolding(rows::specs::View::term_of))]
pub(crate) fn argument_count(plan: &Plan<'_, '_, '_>, m: usize) -> usize
    ensures { result ≡ length (term_at (env_of plan.now) m).arg_tys }
{
    plan.list(plan.row_at(TERMS, m), TERM_HEAD).len()
}

// The type n, if the plan declares it; its fields are in its row's list.
fn declared_type(plan: &Plan<'_, '_, '_>, n: usize) -> Option<TypeData>
    ensures { Declares (env_of plan.now) n result }
{
    let r = plan.type_row(n)?;
    Some(plan.type_at(r))
}

// Whether the type n is an enum.
pub fn enum_exists(plan: &Plan<'_, '_, '_>, n: usize) -> bool
    ensures own { result ≡ enum_exists (env_of plan.now) n }
    ensures any { (bytes : List ℕ) → let p = plan.now in result ≡ enum_exists (environment_in bytes p.words.now p.rows.now p.tables.now) n }
{
    declared_type(plan, n).is_some_and(|ty| matches!(ty, TypeData::Enum(_)))
}

// Whether the type n is a struct.
pub fn struct_exists(plan: &Plan<'_, '_, '_>, n: usize) -> bool
    ensures own { result ≡ struct_exists (env_of plan.now) n }
    ensures any { (bytes : List ℕ) → let p = plan.now in result ≡ struct_exists (environment_in bytes p.words.now p.rows.now p.tables.now) n }
{
    declared_type(plan, n).is_some_and(|ty| matches!(ty, TypeData::Struct(_, _)))
}

// Whether the type n is an enum with a variant k.
#[tactic(auto, using(crate::proofs::Sorts::variants_found))]
pub fn variant_exists(indexed: &Indexed<'_>, n: usize, k: usize) -> bool
    ensures own { result ≡ variant_exists (env_of indexed.now.plan) n k }
    ensures any { (bytes : List ℕ) → let p = indexed.now.plan in result ≡ variant_exists (environment_in bytes p.words.now p.rows.now p.tables.now) n k }
{
    enum_exists(&indexed.plan, n) && k < indexed.plan.variant_count(n)
}

fn is_present(f: FunctionKind) -> bool
    ensures { result ≡ is_present (function_told f) }
{
    !matches!(f, FunctionKind::Absent)
}

// Whether the term n exists, with the function that the word k of its row says.
fn has_function(plan: &Plan<'_, '_, '_>, n: usize, k: usize) -> bool
    ensures { result ≡ (ltb n (length (env_of plan.now).terms) && is_present (function_of (nth (get_or (rows_of plan.now 6) n []) k))) }
{
    n < term_count(plan) && is_present(plan.function_kind_at(plan.row_at(TERMS, n), k))
}

// Whether the term n has a constructor.
#[tactic(auto, using(crate::proofs::Bytes::constructor_any, view::proofs::Plans::term_is), unfolding(rows::specs::View::term_of))]
pub fn constructor_exists(plan: &Plan<'_, '_, '_>, n: usize) -> bool
    ensures own { result ≡ constructor_exists (env_of plan.now) n }
    ensures any { (bytes : List ℕ) → let p = plan.now in result ≡ constructor_exists (environment_in bytes p.words.now p.rows.now p.tables.now) n }
{
    has_function(plan, n, 5)
}

// Whether the term n has an extractor.
#[tactic(auto, using(crate::proofs::Bytes::extractor_any, view::proofs::Plans::term_is), unfolding(rows::specs::View::term_of))]
pub fn extractor_exists(plan: &Plan<'_, '_, '_>, n: usize) -> bool
    ensures own { result ≡ extractor_exists (env_of plan.now) n }
    ensures any { (bytes : List ℕ) → let p = plan.now in result ≡ extractor_exists (environment_in bytes p.words.now p.rows.now p.tables.now) n }
{
    has_function(plan, n, 6)
}
