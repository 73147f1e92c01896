// What an arm asks of its match's source q: codegen.rs 1077, `emit_constraint`.
ghost use Rattle.std.specs.Prelude.{ℕ};
ghost use Rattle.text.specs.Writes.{SameSink};
ghost use Rattle.plan.specs.Plan.{Environment};
ghost use Rattle.plan.specs.Constraint as constraint;
ghost use Rattle.rows.specs.View.{patterns_in};
ghost use Rattle.codegen.specs.Pattern.{inside_some, emit_constraint};
ghost use Rattle.view.specs.Buffers.{env_of};
ghost use Rattle.view.specs.Told.{constraint_told};
ghost use Rattle.emits.specs.Runs.{Emits};
ghost use Rattle.emits.specs.Marks.{set_of};
ghost use Rattle.sema.specs.Holds.{VariantsIndexed};

use super::fields::emit_fields;
use emits::stablemapset::{contains, insert};
use expr_parts::consts::{emit_bool, emit_int};
use expr_parts::pieces::put_var;
use expr_parts::{const_prim, type_name, variant_name};
use sema::types::TypeId;
use text::sink::Sink;
use view::block::{Constraint, pattern_of};
use view::buffers::Plan;

// A variant k of an enum, with its fields.
fn emit_variant(
    w: &mut Sink<'_>,
    plan: &Plan<'_, '_, '_>,
    refs: &mut [bool],
    depth: usize,
    ty: TypeId,
    k: usize,
    list: &[u32],
)
    ensures emits { VariantsIndexed plan.now → let env = env_of plan.now in (q : ℕ) → Emits env depth (emit_constraint env q (constraint.Variant ty.0 k) (patterns_in list.now)) w.old (set_of refs.old) w.new (set_of refs.new) }
    ensures same { SameSink w.old w.new }
{
    let variant = ty.variant(plan, k);
    w.put_bytes(b"&");
    variant_name(w, plan, ty, variant.name);
    emit_fields(w, plan, refs, depth, &variant.fields, list);
}

// A struct, with its fields.
fn emit_struct(
    w: &mut Sink<'_>,
    plan: &Plan<'_, '_, '_>,
    refs: &mut [bool],
    depth: usize,
    ty: TypeId,
    list: &[u32],
)
    ensures { let env = env_of plan.now in (q : ℕ) → Emits env depth (emit_constraint env q (constraint.Struct ty.0) (patterns_in list.now)) w.old (set_of refs.old) w.new (set_of refs.new) }
{
    w.put_bytes(b"&");
    type_name(w, plan, ty);
    emit_fields(w, plan, refs, depth, &ty.fields(plan), list);
}

// What stands inside `Some(` and `)`: a reference if the source is one.
fn put_inside_some(w: &mut Sink<'_>, refs: &mut [bool], q: usize, list: &[u32])
    ensures { (env : Environment) (d : ℕ) → Emits env d (inside_some q (patterns_in list.now)) w.old (set_of refs.old) w.new (set_of refs.new) }
{
    let Some(word) = list.first() else {
        return;
    };
    let Some(b) = pattern_of(*word) else {
        return w.put_bytes(b"_");
    };
    if contains(refs, q) {
        insert(refs, b);
    }
    put_var(w, b);
}

fn emit_some(w: &mut Sink<'_>, refs: &mut [bool], q: usize, list: &[u32])
    ensures { (env : Environment) (d : ℕ) → Emits env d (emit_constraint env q constraint.Some (patterns_in list.now)) w.old (set_of refs.old) w.new (set_of refs.new) }
{
    w.put_bytes(b"Some(");
    put_inside_some(w, refs, q, list);
    w.put_bytes(b")");
}

// The constraint c, with the bindings of the pattern's list.
pub fn emit_constraint(
    w: &mut Sink<'_>,
    plan: &Plan<'_, '_, '_>,
    refs: &mut [bool],
    depth: usize,
    q: usize,
    c: Constraint,
    list: &[u32],
)
    ensures emits { VariantsIndexed plan.now → let env = env_of plan.now in Emits env depth (emit_constraint env q (constraint_told c) (patterns_in list.now)) w.old (set_of refs.old) w.new (set_of refs.new) }
    ensures same { SameSink w.old w.new }
{
    match c {
        Constraint::ConstBool { val } => emit_bool(w, val),
        Constraint::ConstInt { ty, val } => emit_int(w, TypeId(ty), val),
        Constraint::ConstPrim { val } => const_prim(w, plan, val),
        Constraint::Variant { ty, variant } => {
            emit_variant(w, plan, refs, depth, TypeId(ty), variant, list)
        }
        Constraint::Struct { ty } => emit_struct(w, plan, refs, depth, TypeId(ty), list),
        Constraint::Some => emit_some(w, refs, q, list),
    }
}
