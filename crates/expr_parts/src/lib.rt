// What an expression is made of beside its sources. The marks are slices of any length, which a set with 1,024 would narrow.
#![tactic(auto, using(emits::specs::Emitted::emitted), unfolding(codegen::specs::Piece::odd_pieces, codegen::specs::Piece::odd_piece))]

pub mod consts;
pub mod pieces;

ghost use Rattle.std.specs.Prelude.{ℕ, ◌+◌, min, ◌≡◌, refl, cond, not, ◌&&◌, [], ◌∷◌, ◌++◌, length, get_or};
ghost use Rattle.text.specs.Writes.{SameSink};
ghost use Rattle.plan.specs.Plan.{Environment};
ghost use Rattle.codegen.specs.Piece.{fix, sym, type, num, var, break};
ghost use Rattle.codegen.specs.ReturnKind.{by_return_kind};
ghost use Rattle.codegen.specs.Sema.{field_name};
ghost use Rattle.codegen.specs.Writer.{say, mark, ask, ◌▸◌, nothing};
ghost use Rattle.codegen.specs.Expr.{returns_ref};
ghost use Rattle.view.specs.Buffers.{env_of};
ghost use Rattle.view.specs.Told.{binding_told};
ghost use Rattle.emits.specs.Marks.{set_of};
ghost use Rattle.emits.specs.Runs.{Emits, EmitsPlain};
ghost use Rattle.emits.specs.Sinks.{Shows};
ghost use Rattle.sema.specs.Fields.{fields_read};
ghost use Rattle.sema.specs.Signature.{sig_told};
ghost use Rattle.expr_parts.specs.Sources.{after_one};

use crate::pieces::put_var;
use emits::stablemapset::{contains, insert};
use sema::fields::Fields;
use sema::signature::{ExternalSig, ReturnKind};
use sema::texts::{Text, put_text};
use sema::types::TypeId;
use text::sink::Sink;
use view::binding::Binding;
use view::buffers::Plan;

pub fn const_prim(w: &mut Sink<'_>, plan: &Plan<'_, '_, '_>, val: usize)
    ensures { let env = env_of plan.now in (d : ℕ) → Shows env d (sym val ∷ []) w.old w.new }
{
    put_text(w, plan, Text::Sym, val);
}

pub fn argument(w: &mut Sink<'_>, i: usize)
    ensures { (env : Environment) (d : ℕ) → Shows env d (fix "arg" refl ∷ num i ∷ []) w.old w.new }
{
    w.put_bytes(b"arg");
    w.put_decimal(i as u64);
}

// After the source of `MatchSome`: `?` on a reference needs `.as_ref()`.
fn put_try(w: &mut Sink<'_>, refs: &[bool], q: usize)
    ensures plain { (env : Environment) (d : ℕ) → EmitsPlain env d (ask q (λ x. say (cond x (fix ".as_ref()?" refl) (fix "?" refl) ∷ []))) w.old (set_of refs.now) w.new (set_of refs.now) }
    ensures odd { w.new.odd ≡ w.old.odd }
{
    if contains(refs, q) {
        w.put_bytes(b".as_ref()?");
    } else {
        w.put_bytes(b"?");
    }
}

// A source's field by number. One function with `argument` and `put_var` would take the text as well: each call as long as these two lines.
fn put_field(w: &mut Sink<'_>, field: usize)
    ensures shows { (env : Environment) (d : ℕ) → Shows env d (fix "." refl ∷ num field ∷ []) w.old w.new }
    ensures odd { w.new.odd ≡ w.old.odd }
{
    w.put_bytes(b".");
    w.put_decimal(field as u64);
}

// These kinds are not supposed to be written: codegen.rs has the generated text fail to compile.
fn put_fixme_field(w: &mut Sink<'_>, field: usize)
    ensures shows { (env : Environment) (d : ℕ) → Shows env d (fix "." refl ∷ num field ∷ fix " /*FIXME*/" refl ∷ []) w.old w.new }
    ensures odd { w.new.odd ≡ w.old.odd }
{
    put_field(w, field);
    w.put_bytes(b" /*FIXME*/");
}

// What stands after the source of a kind that has one.
pub fn put_after(w: &mut Sink<'_>, refs: &[bool], q: usize, k: Binding)
    ensures emits { (env : Environment) (d : ℕ) → Emits env d (after_one (binding_told k) q) w.old (set_of refs.now) w.new (set_of refs.now) }
    ensures plain { (env : Environment) (d : ℕ) → EmitsPlain env d (after_one (binding_told k) q) w.old (set_of refs.now) w.new (set_of refs.now) }
    ensures odd { w.new.odd ≡ w.old.odd }
{
    match k {
        Binding::Iterator => w.put_bytes(b".next() /*FIXME*/"),
        Binding::MakeSome => w.put_bytes(b")"),
        Binding::MatchSome => put_try(w, refs, q),
        Binding::MatchTuple { field } => put_field(w, field),
        Binding::MatchVariant { field } | Binding::ExtractStruct { field } => {
            put_fixme_field(w, field)
        }
        _ => {}
    }
}

// Before a value of which a reference is wanted, if it is none. `put_clone` has another text, and the test the other way round.
pub fn put_borrow(w: &mut Sink<'_>, wanted: bool, given: bool)
    ensures { (env : Environment) (d : ℕ) → Shows env d (cond (wanted && not given) (fix "&" refl ∷ []) []) w.old w.new }
{
    if wanted && !given {
        w.put_bytes(b"&");
    }
}

// After a reference of which the value is wanted. `wanted` is false for fields and returned values: a function without it would have the
// text once more, and the test at its call, which `put_borrow` has in itself.
pub fn put_clone(w: &mut Sink<'_>, wanted: bool, given: bool)
    ensures { (env : Environment) (d : ℕ) → Shows env d (cond (given && not wanted) (fix ".clone()" refl ∷ []) []) w.old w.new }
{
    if given && !wanted {
        w.put_bytes(b".clone()");
    }
}

// The names before a struct's and a variant's fields.
pub fn type_name(w: &mut Sink<'_>, plan: &Plan<'_, '_, '_>, ty: TypeId)
    ensures { let env = env_of plan.now in (d : ℕ) → Shows env d (type ty.0 ∷ []) w.old w.new }
{
    ty.put_name(w, plan);
}

pub fn variant_name(w: &mut Sink<'_>, plan: &Plan<'_, '_, '_>, ty: TypeId, name: usize)
    ensures { let env = env_of plan.now in (d : ℕ) → Shows env d (type ty.0 ∷ fix "::" refl ∷ sym name ∷ []) w.old w.new }
{
    type_name(w, plan, ty);
    w.put_bytes(b"::");
    put_text(w, plan, Text::Sym, name);
}

// Whether a call's result is a reference: one type is returned, and that is one.
#[tactic(auto, using(crate::proofs::Laws::returns_first, crate::proofs::Laws::returns_others))]
fn returns_ref(plan: &Plan<'_, '_, '_>, sig: ExternalSig) -> bool
    ensures { let env = env_of plan.now in result ≡ returns_ref env (sig_told env sig).ret_tys }
{
    sig.ret_count(plan) == 1 && sig.ret_ty(plan, 0).is_ref(plan)
}

// A result that is a reference is marked, and `&` written.
pub fn mark_result(
    w: &mut Sink<'_>,
    plan: &Plan<'_, '_, '_>,
    refs: &mut [bool],
    b: usize,
    sig: ExternalSig,
)
    ensures emits { let env = env_of plan.now in (d : ℕ) → Emits env d (cond (returns_ref env (sig_told env sig).ret_tys) (mark b ▸ say (fix "&" refl ∷ [])) nothing) w.old (set_of refs.old) w.new (set_of refs.new) }
    ensures plain { let env = env_of plan.now in (d : ℕ) → EmitsPlain env d (cond (returns_ref env (sig_told env sig).ret_tys) (mark b ▸ say (fix "&" refl ∷ [])) nothing) w.old (set_of refs.old) w.new (set_of refs.new) }
    ensures odd { w.new.odd ≡ w.old.odd }
{
    if returns_ref(plan, sig) {
        insert(refs, b);
        w.put_bytes(b"&");
    }
}

// How many parameters a call writes: as many as there are both sources and types.
pub fn parameter_count(plan: &Plan<'_, '_, '_>, sources: &[u32], sig: ExternalSig) -> usize
    ensures { result ≡ min (length sources.now) (length (sig_told (env_of plan.now) sig).param_tys) }
{
    sources.len().min(sig.param_count(plan))
}

// The end of a call: an iterator's takes the binding's own name.
pub fn put_call_end(w: &mut Sink<'_>, b: usize, sig: ExternalSig)
    ensures { (env : Environment) (d : ℕ) → Shows env d (by_return_kind (sig_told env sig).ret_kind (fix ", &mut " refl ∷ var b ∷ []) [] [] ++ (fix ")" refl ∷ [])) w.old w.new }
{
    if sig.ret_kind == ReturnKind::Iterator {
        w.put_bytes(b", &mut ");
        put_var(w, b);
    }
    w.put_bytes(b")");
}

// The line of field i up to its value.
pub fn field_head(w: &mut Sink<'_>, plan: &Plan<'_, '_, '_>, depth: usize, f: &Fields<'_>, i: usize)
    ensures shows { let env = env_of plan.now in (d₀ d : ℕ) → depth ≡ d₀ + d → Shows env d₀ (break d ∷ field_name (fields_read f.now) i ∷ fix ": " refl ∷ []) w.old w.new }
    ensures same { SameSink w.old w.new }
{
    w.put_byte(b'\n');
    w.put_indent(depth);
    f.put_name(w, plan, i);
    w.put_bytes(b": ");
}
