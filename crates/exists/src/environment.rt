// Refusal 5 of the types, variants and terms.
ghost use Rattle.std.specs.Prelude.{◌≡◌, true, false};
ghost use Rattle.plan.specs.Refusal.{fields_exist, declared_exists, function_exists, type_refers, variant_refers, term_refers};
ghost use Rattle.rows.specs.View.{type_of, variant_of, term_of};
ghost use Rattle.view.specs.Buffers.{words_of, env_of};
ghost use Rattle.view.specs.Told.{function_told, fields_told, declared_told};

use super::counts::{enum_exists, pos_count, sym_count, type_count};
use checks::list::{fields_below, list_below};
use rows::kinds::Shape;
use view::buffers::Plan;
use view::environment::{Declared, FunctionKind, TypeData};
use view::heads::{TERM_HEAD, TYPE_HEAD, VARIANT_HEAD};

// Whether all that a shape's fields name exists; they are in a row's list.
fn fields_exist(plan: &Plan<'_, '_, '_>, s: Shape, list: &[u32]) -> bool
    ensures { result ≡ fields_exist (env_of plan.now) (fields_told s list.now) }
{
    match s {
        Shape::Unit => true,
        Shape::Named => fields_below(list, sym_count(plan), type_count(plan)),
        Shape::Tuple => list_below(list, type_count(plan)),
    }
}

fn declared_exists(plan: &Plan<'_, '_, '_>, d: Declared) -> bool
    ensures { result ≡ declared_exists (env_of plan.now) (declared_told d) }
{
    d.name < sym_count(plan) && d.pos < pos_count(plan)
}

// Whether all that the type of row r names exists.
#[tactic(auto, unfolding(plan::specs::Refusal::type_refers))]
pub(crate) fn type_refers(plan: &Plan<'_, '_, '_>, r: usize) -> bool
    ensures { result ≡ type_refers (env_of plan.now) (type_of (words_of plan.now r)) }
{
    match plan.type_at(r) {
        TypeData::Builtin(_) => true,
        TypeData::Primitive(n) => n < sym_count(plan),
        TypeData::Enum(d) => declared_exists(plan, d),
        TypeData::Struct(d, s) => declared_exists(plan, d)
            && fields_exist(plan, s, plan.list(r, TYPE_HEAD)),
    }
}

// The same of the variant of row r.
#[tactic(auto, unfolding(plan::specs::Refusal::variant_refers, rows::specs::View::variant_of))]
pub(crate) fn variant_refers(plan: &Plan<'_, '_, '_>, r: usize) -> bool
    ensures { result ≡ variant_refers (env_of plan.now) (variant_of (words_of plan.now r)) }
{
    let v = plan.variant_at(r);
    enum_exists(plan, v.ty)
        && v.name < sym_count(plan)
        && fields_exist(plan, v.shape, plan.list(r, VARIANT_HEAD))
}

fn function_exists(plan: &Plan<'_, '_, '_>, f: FunctionKind) -> bool
    ensures { result ≡ function_exists (env_of plan.now) (function_told f) }
{
    match f {
        FunctionKind::External { name } => name < sym_count(plan),
        _ => true,
    }
}

// The same of the term of row r.
#[tactic(auto, unfolding(plan::specs::Refusal::term_refers, rows::specs::View::term_of))]
pub(crate) fn term_refers(plan: &Plan<'_, '_, '_>, r: usize) -> bool
    ensures { result ≡ term_refers (env_of plan.now) (term_of (words_of plan.now r)) }
{
    let types = type_count(plan);
    let m = plan.term_at(r);
    m.name < sym_count(plan)
        && m.pos < pos_count(plan)
        && m.ret_ty < types
        && function_exists(plan, m.ctor)
        && function_exists(plan, m.xtor)
        && list_below(plan.list(r, TERM_HEAD), types)
}
