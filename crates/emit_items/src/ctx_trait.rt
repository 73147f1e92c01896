// `generate_ctx_trait` of codegen.rs 274, with `generate_trait_sig` and `type_name`.
// What a contract says, it says of the environment that the plan's buffers hold (`env_of` of the crate view).
ghost use Rattle.std.specs.Prelude.{ℕ};
ghost use Rattle.plan.specs.Plan.{Environment};
ghost use Rattle.plan.specs.Lookup.{term_at};
ghost use Rattle.view.specs.Buffers.{env_of};
ghost use Rattle.view.specs.Told.{function_told};
ghost use Rattle.codegen.specs.Items.{join, type_name, type_names, ret_tuple, sig_params, generate_trait_sig, term_sigs, iterator_text, generate_ctx_trait};
ghost use Rattle.emits.specs.Sinks.{Shows};
ghost use Rattle.sema.specs.Signature.{sig_told};
ghost use Rattle.emit_items.specs.TraitParts.{separator, param, last_param, returns_type, ret_ty, external_sig, term_sig};

use sema::signature::{ExternalSig, ReturnKind, TermId};
use sema::types::TypeId;
use text::sink::Sink;
use view::buffers::Plan;
use view::environment::FunctionKind;
use view::tables::TERMS;

// `type_name` of codegen.rs 506, with its parameter `by_ref`: a function for each of its two values would be no plainer than this one.
#[tactic(auto, using(crate::specs::Shown::shown, crate::proofs::ctx_trait::Lists::shows_param), unfolding(codegen::specs::Items::type_name))]
pub fn type_name(w: &mut Sink<'_>, plan: &Plan<'_, '_, '_>, by_ref: bool, ty: TypeId)
    ensures { let env = env_of plan.now in (d : ℕ) → Shows env d (type_name env by_ref ty.0) w.old w.new }
{
    if by_ref {
        ty.put_param(w, plan);
    } else {
        ty.put_name(w, plan);
    }
}

// What stands before the part i of a list.
#[tactic(auto, using(crate::specs::Shown::shown), unfolding(crate::specs::TraitParts::separator))]
pub fn put_separator(w: &mut Sink<'_>, i: usize)
    ensures { (env : Environment) → Shows env 0 (separator i) w.old w.new }
{
    if i != 0 {
        w.put_bytes(b", ");
    }
}

// The results of a signature. By number, here and in `sig_params`: `ret_ty` and `param_ty` make a `TypeId` of a word, which each loop over the
// words would do itself.
fn ret_types(w: &mut Sink<'_>, plan: &Plan<'_, '_, '_>, sig: ExternalSig)
    ensures { let env = env_of plan.now in Shows env 0 (join (type_names env (sig_told env sig).ret_tys)) w.old w.new }
{
    for i in 0..sig.ret_count(plan) {
        put_separator(w, i);
        type_name(w, plan, false, sig.ret_ty(plan, i));
    }
}

// They stand in parentheses unless there is one.
fn ret_tuple(w: &mut Sink<'_>, plan: &Plan<'_, '_, '_>, sig: ExternalSig)
    ensures { let env = env_of plan.now in Shows env 0 (ret_tuple env (sig_told env sig).ret_tys) w.old w.new }
{
    match sig.ret_count(plan) {
        0 => w.put_bytes(b"()"),
        1 => type_name(w, plan, false, sig.ret_ty(plan, 0)),
        _ => {
            w.put_bytes(b"(");
            ret_types(w, plan, sig);
            w.put_bytes(b")");
        }
    }
}

// The parameter i of a signature.
fn param(w: &mut Sink<'_>, plan: &Plan<'_, '_, '_>, sig: ExternalSig, i: usize)
    ensures { let env = env_of plan.now in Shows env 0 (param env (sig_told env sig) i) w.old w.new }
{
    put_separator(w, i);
    w.put_bytes(b"arg");
    w.put_decimal(i as u64);
    w.put_bytes(b": ");
    type_name(w, plan, true, sig.param_ty(plan, i));
}

// The buffer of an iterator, after n parameters.
#[tactic(auto, using(crate::specs::Shown::shown), unfolding(codegen::specs::ReturnKind::by_return_kind, crate::specs::TraitParts::joined))]
fn last_param(w: &mut Sink<'_>, plan: &Plan<'_, '_, '_>, sig: ExternalSig, n: usize)
    ensures { let env = env_of plan.now in Shows env 0 (last_param (sig_told env sig) n) w.old w.new }
{
    if sig.ret_kind == ReturnKind::Iterator {
        put_separator(w, n);
        w.put_bytes(b"returns: &mut Self::");
        sig.put_func_name(w, plan);
        w.put_bytes(b"_returns");
    }
}

fn sig_params(w: &mut Sink<'_>, plan: &Plan<'_, '_, '_>, sig: ExternalSig)
    ensures { let env = env_of plan.now in Shows env 0 (join (sig_params env (sig_told env sig) 0 (sig_told env sig).param_tys)) w.old w.new }
{
    let n = sig.param_count(plan);
    for i in 0..n {
        param(w, plan, sig, i);
    }
    last_param(w, plan, sig, n);
}

// The line for the type of an iterator's buffer.
#[tactic(auto, using(crate::specs::Shown::shown), unfolding(codegen::specs::ReturnKind::by_return_kind))]
fn returns_type(w: &mut Sink<'_>, plan: &Plan<'_, '_, '_>, sig: ExternalSig)
    ensures { let env = env_of plan.now in Shows env 0 (returns_type env (sig_told env sig)) w.old w.new }
{
    if sig.ret_kind == ReturnKind::Iterator {
        w.put_bytes(b"    type ");
        sig.put_func_name(w, plan);
        w.put_bytes(b"_returns: Default + IntoContextIter<Context = Self, Output = ");
        ret_tuple(w, plan, sig);
        w.put_bytes(b">;\n");
    }
}

#[tactic(auto, using(crate::specs::Shown::shown), unfolding(codegen::specs::ReturnKind::by_return_kind))]
fn ret_ty(w: &mut Sink<'_>, plan: &Plan<'_, '_, '_>, sig: ExternalSig)
    ensures { let env = env_of plan.now in Shows env 0 (ret_ty env (sig_told env sig)) w.old w.new }
{
    match sig.ret_kind {
        ReturnKind::Iterator => w.put_bytes(b"()"),
        ReturnKind::Option => {
            w.put_bytes(b"Option<");
            ret_tuple(w, plan, sig);
            w.put_bytes(b">");
        }
        ReturnKind::Plain => ret_tuple(w, plan, sig),
    }
}

// `generate_trait_sig` of codegen.rs 222.
fn generate_trait_sig(w: &mut Sink<'_>, plan: &Plan<'_, '_, '_>, sig: ExternalSig)
    ensures { let env = env_of plan.now in Shows env 0 (generate_trait_sig env (sig_told env sig)) w.old w.new }
{
    returns_type(w, plan, sig);
    w.put_bytes(b"    fn ");
    sig.put_func_name(w, plan);
    w.put_bytes(b"(&mut self, ");
    sig_params(w, plan, sig);
    w.put_bytes(b") -> ");
    ret_ty(w, plan, sig);
    w.put_bytes(b";\n");
}

#[tactic(auto, using(crate::specs::Shown::shown), unfolding(codegen::specs::Sema::is_external))]
fn external_sig(w: &mut Sink<'_>, plan: &Plan<'_, '_, '_>, sig: ExternalSig)
    ensures { let env = env_of plan.now in Shows env 0 (external_sig env (function_told sig.func) (sig_told env sig)) w.old w.new }
{
    if matches!(sig.func, FunctionKind::External { .. }) {
        generate_trait_sig(w, plan, sig);
    }
}

// A term has its external extractor before its constructor.
#[tactic(auto, using(crate::specs::Shown::shown), unfolding(crate::specs::TraitParts::term_sig))]
fn term_sig(w: &mut Sink<'_>, plan: &Plan<'_, '_, '_>, term: TermId)
    ensures { let env = env_of plan.now in Shows env 0 (term_sig env (term_at env term.0)) w.old w.new }
{
    external_sig(w, plan, term.extractor_sig(plan));
    external_sig(w, plan, term.constructor_sig(plan));
}

fn term_sigs(w: &mut Sink<'_>, plan: &Plan<'_, '_, '_>)
    ensures { let env = env_of plan.now in Shows env 0 (term_sigs env env.terms) w.old w.new }
{
    for i in 0..plan.row_count(TERMS) {
        term_sig(w, plan, TermId(i));
    }
}

// The iterator text; its last line has spaces only.
fn iterator_text(w: &mut Sink<'_>)
    ensures { (env : Environment) → Shows env 0 (iterator_text) w.old w.new }
{
    w.put_bytes(
        b"
pub trait ContextIter {
    type Context;
    type Output;
    fn next(&mut self, ctx: &mut Self::Context) -> Option<Self::Output>;
    fn size_hint(&self) -> (usize, Option<usize>) { (0, None) }
}

pub trait IntoContextIter {
    type Context;
    type Output;
    type IntoIter: ContextIter<Context = Self::Context, Output = Self::Output>;
    fn into_context_iter(self) -> Self::IntoIter;
}

pub trait Length {
    fn len(&self) -> usize;
}

impl<T> Length for alloc::vec::Vec<T> {
    fn len(&self) -> usize {
        alloc::vec::Vec::len(self)
    }
}

pub struct ContextIterWrapper<I, C> {
    iter: I,
    _ctx: core::marker::PhantomData<C>,
}
impl<I: Default, C> Default for ContextIterWrapper<I, C> {
    fn default() -> Self {
        ContextIterWrapper {
            iter: I::default(),
            _ctx: core::marker::PhantomData
        }
    }
}
impl<I, C> core::ops::Deref for ContextIterWrapper<I, C> {
    type Target = I;
    fn deref(&self) -> &I {
        &self.iter
    }
}
impl<I, C> core::ops::DerefMut for ContextIterWrapper<I, C> {
    fn deref_mut(&mut self) -> &mut I {
        &mut self.iter
    }
}
impl<I: Iterator, C: Context> From<I> for ContextIterWrapper<I, C> {
    fn from(iter: I) -> Self {
        Self { iter, _ctx: core::marker::PhantomData }
    }
}
impl<I: Iterator, C: Context> ContextIter for ContextIterWrapper<I, C> {
    type Context = C;
    type Output = I::Item;
    fn next(&mut self, _ctx: &mut Self::Context) -> Option<Self::Output> {
        self.iter.next()
    }
    fn size_hint(&self) -> (usize, Option<usize>) {
        self.iter.size_hint()
    }
}
impl<I: IntoIterator, C: Context> IntoContextIter for ContextIterWrapper<I, C> {
    type Context = C;
    type Output = I::Item;
    type IntoIter = ContextIterWrapper<I::IntoIter, C>;
    fn into_context_iter(self) -> Self::IntoIter {
        ContextIterWrapper {
            iter: self.iter.into_iter(),
            _ctx: core::marker::PhantomData
        }
    }
}
impl<T, E: Extend<T>, C> Extend<T> for ContextIterWrapper<E, C> {
    fn extend<I: IntoIterator<Item = T>>(&mut self, iter: I) {
        self.iter.extend(iter);
    }
}
impl<L: Length, C> Length for ContextIterWrapper<L, C> {
    fn len(&self) -> usize {
        self.iter.len()
    }
}
",
    );
    w.put_bytes(b"           \n");
}

pub fn generate_ctx_trait(w: &mut Sink<'_>, plan: &Plan<'_, '_, '_>)
    ensures { let env = env_of plan.now in Shows env 0 (generate_ctx_trait env) w.old w.new }
{
    w.put_bytes(
        b"
/// Context during lowering: an implementation of this trait
/// must be provided with all external constructors and extractors.
/// A mutable borrow is passed along through all lowering logic.
pub trait Context {
",
    );
    term_sigs(w, plan);
    w.put_bytes(b"}\n");
    iterator_text(w);
}
