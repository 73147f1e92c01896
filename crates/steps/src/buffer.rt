// The start of a let: codegen.rs 694, `iter_return`, gives the type of the buffer for what a call returns many of.
ghost use Rattle.std.specs.Prelude.{ℕ};
ghost use Rattle.std.proofs.Math.Option.{none};
ghost use Rattle.plan.specs.Plan.{Environment};
ghost use Rattle.plan.specs.Lookup.{binding_at};
ghost use Rattle.codegen.specs.Sema.{is_external};
ghost use Rattle.codegen.specs.Block.{buffer, iter_return, let_head};
ghost use Rattle.view.specs.Buffers.{env_of};
ghost use Rattle.view.specs.Told.{function_told};
ghost use Rattle.emits.specs.Sinks.{Shows};
ghost use Rattle.sema.specs.Signature.{sig_told};
ghost use Rattle.body.specs.Told.{body_told};
ghost use Rattle.steps.specs.Buffer.{buffer_type};

use body::Body;
use expr::call::called;
use expr_parts::pieces::{put_break, put_var};
use sema::signature::{ExternalSig, ReturnKind};
use text::sink::Sink;
use view::buffers::Plan;
use view::environment::FunctionKind;

// The type of the buffer: an external term's own, and one for all internal terms.
fn put_buffer(w: &mut Sink<'_>, plan: &Plan<'_, '_, '_>, sig: ExternalSig)
    ensures { let env = env_of plan.now in (d : ℕ) → Shows env d (buffer_type (is_external (function_told sig.func)) (sig_told env sig).func_name) w.old w.new }
{
    match sig.func {
        FunctionKind::External { .. } => {
            w.put_bytes(b"C::");
            sig.put_func_name(w, plan);
            w.put_bytes(b"_returns");
        }
        FunctionKind::Absent | FunctionKind::Internal => {
            w.put_bytes(b"ContextIterWrapper::<ConstructorVec<_>, _>")
        }
    }
}

// A binding that needs no buffer.
#[tactic(auto, using(emits::specs::Emitted::shown, expr_parts::specs::EmitsLaws::shows_new_put), unfolding(codegen::specs::Block::let_head))]
fn let_value(w: &mut Sink<'_>, b: usize)
    ensures { (env : Environment) (d : ℕ) → Shows env d (let_head b none) w.old w.new }
{
    w.put_bytes(b"let ");
    put_var(w, b);
    w.put_bytes(b" = ");
}

// A binding that calls a function, with a buffer if it returns many values.
fn let_call(w: &mut Sink<'_>, plan: &Plan<'_, '_, '_>, depth: usize, sig: ExternalSig, b: usize)
    ensures { let env = env_of plan.now in Shows env depth (let_head b (buffer (sig_told env sig) (function_told sig.func))) w.old w.new }
{
    match sig.ret_kind {
        ReturnKind::Iterator => {
            w.put_bytes(b"let mut ");
            put_var(w, b);
            w.put_bytes(b" = ");
            put_buffer(w, plan, sig);
            w.put_bytes(b"::default();");
            put_break(w, depth, 0);
        }
        ReturnKind::Option | ReturnKind::Plain => let_value(w, b),
    }
}

pub fn let_head(w: &mut Sink<'_>, body: &Body<'_>, depth: usize, b: usize)
    ensures { let c = body_told body.now in Shows c.env depth (let_head b (iter_return c.env (binding_at c.bindings b).binding)) w.old w.new }
{
    let plan = body.bindings.plan;
    match called(plan, body.bindings.binding(b)) {
        None => let_value(w, b),
        Some(sig) => let_call(w, plan, depth, sig, b),
    }
}
