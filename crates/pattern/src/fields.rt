// The fields of a variant's or a struct's pattern: codegen.rs 1136, `emit_fields`. No literal stands in them.
ghost use Rattle.std.specs.Prelude.{◌≡◌, refl, cond, [], ◌∷◌, ◌++◌, ℕ};
ghost use Rattle.plan.specs.Plan.{Environment};
ghost use Rattle.rows.specs.View.{patterns_in};
ghost use Rattle.codegen.specs.Piece.{fix, unbrace, break};
ghost use Rattle.codegen.specs.Writer.{say, mark, ◌▸◌, nothing};
ghost use Rattle.codegen.specs.Pattern.{field_patterns, emit_fields};
ghost use Rattle.view.specs.Buffers.{env_of};
ghost use Rattle.emits.specs.Runs.{Emits, EmitsPlain};
ghost use Rattle.emits.specs.Sinks.{Shows};
ghost use Rattle.emits.specs.Marks.{set_of};
ghost use Rattle.sema.specs.Fields.{fields_read};
ghost use Rattle.view.specs.Told.{pattern_told};

use super::bind::skipped_some;
use emits::stablemapset::insert;
use expr_parts::pieces::{put_break, put_var};
use sema::fields::Fields;
use text::sink::Sink;
use view::block::pattern_of;
use view::buffers::Plan;

// A field whose type is passed by reference is bound as one.
fn put_ref(w: &mut Sink<'_>, refs: &mut [bool], wanted: bool, b: usize)
    ensures plain { (env : Environment) (d : ℕ) → EmitsPlain env d (cond wanted (mark b ▸ say (fix "ref " refl ∷ [])) nothing) w.old (set_of refs.old) w.new (set_of refs.new) }
    ensures odd { w.new.odd ≡ w.old.odd }
{
    if wanted {
        insert(refs, b);
        w.put_bytes(b"ref ");
    }
}

// The field number i, with its binding or `_`. `field_head` of `expr_parts` writes the same up to the name's end, but at a depth that is known
// to be a number; of the depth of a pattern nothing is asked.
fn field_pattern(
    w: &mut Sink<'_>,
    plan: &Plan<'_, '_, '_>,
    refs: &mut [bool],
    depth: usize,
    f: &Fields<'_>,
    i: usize,
    pattern: Option<usize>,
)
    ensures plain { let env = env_of plan.now in EmitsPlain env depth (field_patterns env (fields_read f.now) i (pattern_told pattern ∷ [])) w.old (set_of refs.old) w.new (set_of refs.new) }
    ensures odd { w.new.odd ≡ w.old.odd }
{
    if let Some(b) = pattern {
        put_break(w, depth, 1);
        f.put_name(w, plan, i);
        w.put_bytes(b": ");
        put_ref(w, refs, f.ty(i).is_ref(plan), b);
        put_var(w, b);
        w.put_bytes(b",");
    }
}

// Each field that is bound, on a line of its own.
fn field_patterns(
    w: &mut Sink<'_>,
    plan: &Plan<'_, '_, '_>,
    refs: &mut [bool],
    depth: usize,
    f: &Fields<'_>,
    list: &[u32],
)
    ensures plain { let env = env_of plan.now in EmitsPlain env depth (field_patterns env (fields_read f.now) 0 (patterns_in list.now)) w.old (set_of refs.old) w.new (set_of refs.new) }
    ensures odd { w.new.odd ≡ w.old.odd }
{
    for (i, word) in list.iter().enumerate() {
        field_pattern(w, plan, refs, depth, f, i, pattern_of(*word));
    }
}

// `..` stands for the fields that are not bound.
fn put_skipped(w: &mut Sink<'_>, depth: usize, skipped: bool)
    ensures { (env : Environment) → Shows env depth (cond skipped (break 1 ∷ fix ".." refl ∷ []) [] ++ (break 0 ∷ unbrace ∷ [])) w.old w.new }
{
    if skipped {
        put_break(w, depth, 1);
        w.put_bytes(b"..");
    }
    put_break(w, depth, 0);
    w.put_bytes(b"}");
}

pub fn emit_fields(
    w: &mut Sink<'_>,
    plan: &Plan<'_, '_, '_>,
    refs: &mut [bool],
    depth: usize,
    f: &Fields<'_>,
    list: &[u32],
)
    ensures emits { let env = env_of plan.now in Emits env depth (emit_fields env (fields_read f.now) (patterns_in list.now)) w.old (set_of refs.old) w.new (set_of refs.new) }
    ensures plain { let env = env_of plan.now in EmitsPlain env depth (emit_fields env (fields_read f.now) (patterns_in list.now)) w.old (set_of refs.old) w.new (set_of refs.new) }
    ensures odd { w.new.odd ≡ w.old.odd }
{
    if list.is_empty() {
        return;
    }
    w.put_bytes(b" {");
    field_patterns(w, plan, refs, depth, f, list);
    put_skipped(w, depth, skipped_some(list));
}
