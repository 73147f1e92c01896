// Whole terms, one after the other.
ghost use Rattle.std.specs.Prelude.{◌≡◌, ℕ, [], get_or};
ghost use Rattle.text.specs.Writes.{SameSink, Writes};
ghost use Rattle.plan.specs.Plan as definition;
ghost use Rattle.plan.specs.Lookup.{term_at};
ghost use Rattle.codegen.specs.Sema.{constructor_sig};
ghost use Rattle.codegen.specs.Block.{text_of};
ghost use Rattle.codegen.specs.Terms.{signature, term_end, term_parts, parts};
ghost use Rattle.rows.specs.View.{nth};
ghost use Rattle.view.specs.Buffers.{rows_of, env_of, plan_of};
ghost use Rattle.checks.specs.Tests.{generated_of};
ghost use Rattle.sema.specs.Holds.{VariantsIndexed};
ghost use Rattle.sema.specs.Signature.{return_kind_told, sig_told};
ghost use Rattle.body.specs.Told.{env_in};
ghost use Rattle.body.specs.Walks.{WritesParts};
ghost use Rattle.emit_terms.specs.Accepted.{TermFits, PlanFits};
ghost use Rattle.emit_terms.specs.Told.{OptionsTold, block_in};

use super::block::emit_body;
use super::options::Options;
use body::Body;
use checks::tables::{GeneratedTables, generated_count, generated_tables};
use constructors::ending::{ends_in_return, put_end};
use constructors::signature::{put_arguments, put_head, put_result};
use sema::signature::{ExternalSig, TermId};
use text::sink::Sink;
use view::bindings::Bindings;
use view::buffers::Plan;
use view::tables::TERMS;

// The word k of row n of table t. Single cells are read by their number in the row, in the order of the table's names line.
fn table_word(plan: &Plan<'_, '_, '_>, t: usize, n: usize, k: usize) -> usize
    ensures { result ≡ nth (get_or (rows_of plan.now t) n []) k }
{
    plan.word(plan.row_at(t, n), k)
}

// The signature of a term.
pub fn emit_signature(w: &mut Sink<'_>, plan: &Plan<'_, '_, '_>, sig: ExternalSig, name: usize)
    ensures written { (term : ℕ) → let env = env_of plan.now in let m = term_at env term in sig_told env sig ≡ constructor_sig m → name ≡ m.name → Writes (text_of env (signature env m)) w.old w.new }
    ensures same { SameSink w.old w.new }
{
    put_head(w, plan, name, sig);
    put_arguments(w, plan, sig);
    put_result(w, plan, sig.ret_kind, sig.ret_ty(plan, 0));
}

// The last lines of a term, whose block is in a table.
#[tactic(auto, using(crate::specs::Term::end_written, crate::specs::Term::term_pos, checks::specs::Terms::block_rows))]
fn emit_end(w: &mut Sink<'_>, body: &Body<'_>, block: usize, term: TermId)
    ensures written { let b = body.now in let m = term_at (env_in b) term.0 in (constructor_sig m).ret_kind ≡ return_kind_told b.ret_kind → b.term_name ≡ m.name → Writes (text_of (env_in b) (term_end m (block_in b.bindings.plan.now block))) w.old w.new }
    ensures same { SameSink w.old w.new }
{
    let plan = body.bindings.plan;
    let rows = plan.row_range(block);
    let returns = ends_in_return(plan, rows.start, rows.end);
    let pos = table_word(plan, TERMS, term.0, 1);
    put_end(w, plan, returns, body.ret_kind, body.term_name, pos);
}

// The generated term that these tables hold.
pub fn emit_term(
    w: &mut Sink<'_>,
    plan: &Plan<'_, '_, '_>,
    options: Options,
    tables: GeneratedTables,
)
    ensures written { let g = generated_of plan.now tables in (o : definition.Options) → VariantsIndexed plan.now → OptionsTold o options → TermFits g → WritesParts (env_of plan.now) (term_parts o (env_of plan.now) g) w.old w.new }
    ensures same { SameSink w.old w.new }
{
    let term = TermId(tables.number(plan));
    let name = table_word(plan, TERMS, term.0, 0);
    let sig = term.constructor_sig(plan);
    let body = Body {
        bindings: Bindings {
            plan,
            table: tables.bindings,
        },
        log: options.log,
        ret_kind: sig.ret_kind,
        term_name: name,
        threshold: options.threshold_of(sig.ret_kind),
    };
    emit_signature(w, plan, sig, name);
    emit_body(w, &body, tables.block, sig);
    emit_end(w, &body, tables.block, term);
}

// All generated terms.
pub fn generate_internal_term_constructors(w: &mut Sink<'_>, plan: &Plan<'_, '_, '_>)
    ensures written { VariantsIndexed plan.now → PlanFits (plan_of plan.now) → WritesParts (env_of plan.now) (parts (plan_of plan.now)) w.old w.new }
    ensures same { SameSink w.old w.new }
{
    let options = Options::read(plan);
    for i in 0..generated_count(plan) {
        emit_term(w, plan, options, generated_tables(i));
    }
}
