// Constants, as expressions and patterns have them, with the count of odd literals.
ghost use Rattle.std.specs.Prelude.{◌≡◌, [], ◌∷◌, ℕ};
ghost use Rattle.text.specs.Wide.{whole};
ghost use Rattle.plan.specs.Plan.{Environment};
ghost use Rattle.codegen.specs.Writer.{Marks, say};
ghost use Rattle.codegen.specs.Expr.{emit_bool, emit_int};
ghost use Rattle.view.specs.Buffers.{env_of};
ghost use Rattle.view.specs.declared.buffers.Plan.{Plan};
ghost use Rattle.emits.specs.Runs.{Emits};

use emits::odd::count_odd;
use sema::types::TypeId;
use text::number::Wide;
use text::sink::Sink;

// codegen.rs 1175.
pub fn emit_bool(w: &mut Sink<'_>, val: bool)
    ensures { (env : Environment) (d : ℕ) (q : Marks) → Emits env d (say (emit_bool val ∷ [])) w.old q w.new q }
{
    if val {
        w.put_bytes(b"true");
    } else {
        w.put_bytes(b"false");
    }
}

// codegen.rs 1183: a value of the type, whatever the plan.
#[tactic(auto, using(crate::proofs::consts::Laws::emits_lit))]
pub fn emit_int(w: &mut Sink<'_>, ty: TypeId, val: Wide)
    ensures { (p : Plan) (d : ℕ) (q : Marks) → let env = env_of p in Emits env d (say (emit_int env ty.0 (whole val) ∷ [])) w.old q w.new q }
{
    let int = ty.int_type();
    literal::literal::emit_int(w, int, val);
    let is_odd = literal::literal::is_odd(int, val);
    count_odd(w, is_odd);
}
