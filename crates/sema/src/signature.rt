// Signatures: `ExternalSig` of sema.rs 564, by value; its types are read through `param_ty` and `ret_ty`.
ghost use Rattle.std.specs.Prelude.{◌≡◌, cond, ◌&&◌, [], ◌∷◌, ℕ, length, get_or};
ghost use Rattle.plan.specs.Lookup.{term_at};
ghost use Rattle.codegen.specs.Piece.{sym};
ghost use Rattle.codegen.specs.ReturnKind as kind;
ghost use Rattle.codegen.specs.Sema.{is_external, extractor_sig, constructor_sig};
ghost use Rattle.rows.specs.View.{term_of};
ghost use Rattle.view.specs.Buffers.{words_of, env_of};
ghost use Rattle.view.specs.Told.{function_told};
ghost use Rattle.emits.specs.Sinks.{Shows};
ghost use Rattle.sema.specs.Signature.{return_kind_told, prefix, sig_told};

use super::texts::{Text, put_text};
use super::types::TypeId;
use text::sink::Sink;
use view::buffers::Plan;
use view::environment::FunctionKind;
use view::heads::TERM_HEAD;
use view::tables::TERMS;
use view::word_in;

#[derive(Clone, Copy, PartialEq, Eq)]
pub enum ReturnKind {
    Iterator,
    Option,
    Plain,
}

#[derive(Clone, Copy)]
pub struct ExternalSig {
    pub term: TermId,
    pub is_extractor: bool,
    pub func: FunctionKind,
    pub ret_kind: ReturnKind,
}

impl ReturnKind {
    // That of a function that may return several values, or none.
    fn new(multi: bool, fallible: bool) -> ReturnKind
        ensures { return_kind_told result ≡ cond multi kind.Iterator (cond fallible kind.Option kind.Plain) }
    {
        if multi {
            ReturnKind::Iterator
        } else if fallible {
            ReturnKind::Option
        } else {
            ReturnKind::Plain
        }
    }
}

// An internal extractor is not infallible, whatever its term says.
#[tactic(auto, unfolding(codegen::specs::Sema::is_external))]
fn is_infallible(said: bool, func: FunctionKind) -> bool
    ensures { result ≡ (said && is_external (function_told func)) }
{
    said && matches!(func, FunctionKind::External { .. })
}

// `TermId` of sema.rs: a term by its number.
#[derive(Clone, Copy, PartialEq, Eq)]
pub struct TermId(pub usize);

impl TermId {
    // The term's row. Single cells of it are read by their number in the row, in the order of the table's names line.
    #[tactic(auto, using(crate::proofs::Laws::term_in_row))]
    fn row(self, plan: &Plan<'_, '_, '_>) -> usize
        ensures { term_of (words_of plan.now result) ≡ term_at (env_of plan.now) self.0 }
    {
        plan.row_at(TERMS, self.0)
    }

    // `Term::extractor_sig` of sema.rs 689.
    pub fn extractor_sig(self, plan: &Plan<'_, '_, '_>) -> ExternalSig
        ensures { let env = env_of plan.now in (sig_told env result ≡ extractor_sig (term_at env self.0)) × (function_told result.func ≡ (term_at env self.0).xtor) }
    {
        let row = self.row(plan);
        let func = plan.function_kind_at(row, 6);
        let infallible = is_infallible(plan.flag(row, 7), func);
        ExternalSig {
            term: self,
            is_extractor: true,
            func,
            ret_kind: ReturnKind::new(plan.flag(row, 3), !infallible),
        }
    }

    // `Term::constructor_sig` of sema.rs 729.
    pub fn constructor_sig(self, plan: &Plan<'_, '_, '_>) -> ExternalSig
        ensures { let env = env_of plan.now in (sig_told env result ≡ constructor_sig (term_at env self.0)) × (function_told result.func ≡ (term_at env self.0).ctor) }
    {
        let row = self.row(plan);
        ExternalSig {
            term: self,
            is_extractor: false,
            func: plan.function_kind_at(row, 5),
            ret_kind: ReturnKind::new(plan.flag(row, 3), plan.flag(row, 4)),
        }
    }

    // The types of the term's arguments.
    #[tactic(auto, unfolding(rows::specs::View::term_of))]
    fn arg_tys<'w>(self, plan: &Plan<'_, 'w, '_>) -> &'w [u32]
        ensures { result.now ≡ (term_at (env_of plan.now) self.0).arg_tys }
    {
        plan.list(self.row(plan), TERM_HEAD)
    }

    // The type of its value, as a list of one: 0 where its row has too few words.
    #[tactic(auto, unfolding(rows::specs::View::term_of))]
    fn value_tys<'w>(self, plan: &Plan<'_, 'w, '_>) -> &'w [u32]
        ensures { result.now ≡ (term_at (env_of plan.now) self.0).ret_ty ∷ [] }
    {
        plan.row(self.row(plan)).get(2..3).unwrap_or(&[0])
    }
}

impl ExternalSig {
    // An extractor takes the term's value and returns its arguments; a constructor does the opposite. A list each: one function of both would be
    // told by a flag at each call which is meant.
    fn param_tys<'w>(self, plan: &Plan<'_, 'w, '_>) -> &'w [u32]
        ensures { result.now ≡ (sig_told (env_of plan.now) self).param_tys }
    {
        if self.is_extractor {
            self.term.value_tys(plan)
        } else {
            self.term.arg_tys(plan)
        }
    }

    fn ret_tys<'w>(self, plan: &Plan<'_, 'w, '_>) -> &'w [u32]
        ensures { result.now ≡ (sig_told (env_of plan.now) self).ret_tys }
    {
        if self.is_extractor {
            self.term.arg_tys(plan)
        } else {
            self.term.value_tys(plan)
        }
    }

    pub fn param_count(self, plan: &Plan<'_, '_, '_>) -> usize
        ensures { result ≡ length (sig_told (env_of plan.now) self).param_tys }
    {
        self.param_tys(plan).len()
    }

    pub fn param_ty(self, plan: &Plan<'_, '_, '_>, i: usize) -> TypeId
        ensures { result.0 ≡ get_or (sig_told (env_of plan.now) self).param_tys i 0 }
    {
        TypeId(word_in(self.param_tys(plan), i) as usize)
    }

    pub fn ret_count(self, plan: &Plan<'_, '_, '_>) -> usize
        ensures { result ≡ length (sig_told (env_of plan.now) self).ret_tys }
    {
        self.ret_tys(plan).len()
    }

    pub fn ret_ty(self, plan: &Plan<'_, '_, '_>, i: usize) -> TypeId
        ensures { result.0 ≡ get_or (sig_told (env_of plan.now) self).ret_tys i 0 }
    {
        TypeId(word_in(self.ret_tys(plan), i) as usize)
    }

    // The name of an internal function.
    fn put_internal_name(self, w: &mut Sink<'_>, plan: &Plan<'_, '_, '_>)
        ensures { let env = env_of plan.now in (d : ℕ) → Shows env d (prefix self.is_extractor ∷ sym (term_at env self.term.0).name ∷ []) w.old w.new }
    {
        if self.is_extractor {
            w.put_bytes(b"extractor_");
        } else {
            w.put_bytes(b"constructor_");
        }
        let row = self.term.row(plan);
        put_text(w, plan, Text::Sym, plan.word(row, 0));
    }

    // `func_name`, put into the sink.
    #[tactic(auto, using(emits::specs::Sinks::shows_none, emits::specs::Sinks::shows_sym), unfolding(codegen::specs::Sema::func_name_of))]
    pub fn put_func_name(self, w: &mut Sink<'_>, plan: &Plan<'_, '_, '_>)
        ensures { let env = env_of plan.now in (d : ℕ) → Shows env d (sig_told env self).func_name w.old w.new }
    {
        match self.func {
            FunctionKind::Absent => {}
            FunctionKind::Internal => self.put_internal_name(w, plan),
            FunctionKind::External { name } => put_text(w, plan, Text::Sym, name),
        }
    }

    // `full_name`, by which a function is called, put into the sink.
    pub fn put_full_name(self, w: &mut Sink<'_>, plan: &Plan<'_, '_, '_>)
        ensures { let env = env_of plan.now in (d : ℕ) → Shows env d (sig_told env self).full_name w.old w.new }
    {
        if let FunctionKind::External { .. } = self.func {
            w.put_bytes(b"C::");
        }
        self.put_func_name(w, plan);
    }
}
