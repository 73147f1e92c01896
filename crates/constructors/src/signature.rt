// The signature of a generated term: codegen.rs 541 to 583.
ghost use Rattle.text.specs.Writes.{Writes};
ghost use Rattle.view.specs.Buffers.{env_of};
ghost use Rattle.sema.specs.Signature.{return_kind_told, sig_told};
ghost use Rattle.constructors.specs.Lines.{head_text, argument_text, arguments_text, result_text};

use sema::signature::{ExternalSig, ReturnKind};
use sema::texts::{Text, put_text};
use sema::types::TypeId;
use text::sink::Sink;
use view::buffers::Plan;

// Up to the arguments.
pub fn put_head(w: &mut Sink<'_>, plan: &Plan<'_, '_, '_>, name: usize, sig: ExternalSig)
    ensures { let env = env_of plan.now in Writes (head_text env name (sig_told env sig).func_name) w.old w.new }
{
    w.put_bytes(b"\n// Generated as internal constructor for term ");
    put_text(w, plan, Text::Sym, name);
    w.put_bytes(b".\npub fn ");
    sig.put_func_name(w, plan);
    w.put_bytes(b"<C: Context>(\n    ctx: &mut C,\n");
}

// An argument's line.
fn put_argument(w: &mut Sink<'_>, plan: &Plan<'_, '_, '_>, i: usize, ty: TypeId)
    ensures { Writes (argument_text (env_of plan.now) i ty.0) w.old w.new }
{
    w.put_bytes(b"    arg");
    w.put_decimal(i as u64);
    w.put_bytes(b": ");
    ty.put_param(w, plan);
    w.put_bytes(b",\n");
}

pub fn put_arguments(w: &mut Sink<'_>, plan: &Plan<'_, '_, '_>, sig: ExternalSig)
    ensures { let env = env_of plan.now in Writes (arguments_text env 0 (sig_told env sig).param_tys) w.old w.new }
{
    // By number: `param_ty` makes a `TypeId` of a word, which a loop over the words would do itself.
    for i in 0..sig.param_count(plan) {
        put_argument(w, plan, i, sig.param_ty(plan, i));
    }
}

// After the arguments.
pub fn put_result(w: &mut Sink<'_>, plan: &Plan<'_, '_, '_>, kind: ReturnKind, ty: TypeId)
    ensures { Writes (result_text (env_of plan.now) (return_kind_told kind) ty.0) w.old w.new }
{
    match kind {
        ReturnKind::Iterator => {
            w.put_bytes(b"    returns: &mut (impl Extend<");
            ty.put_name(w, plan);
            w.put_bytes(b"> + Length),\n) -> () {\n");
        }
        ReturnKind::Option => {
            w.put_bytes(b") -> Option<");
            ty.put_name(w, plan);
            w.put_bytes(b"> {\n");
        }
        ReturnKind::Plain => {
            w.put_bytes(b") -> ");
            ty.put_name(w, plan);
            w.put_bytes(b" {\n");
        }
    }
}
