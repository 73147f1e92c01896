// What stands before, between and after the sources of a binding, for all kinds: `emit_expr` of codegen.rs 915 is this and its calls
// of itself. None of these functions is on the stack while a source is written, so they may have what locals they like.
ghost use Rattle.std.specs.Prelude.{ℕ, false, ◌+◌, ◌-◌, ◌<◌, ◌≡◌};
ghost use Rattle.text.specs.Writes.{SameSink};
ghost use Rattle.plan.specs.Plan.{Environment};
ghost use Rattle.codegen.specs.Writer.{Marks, contains};
ghost use Rattle.view.specs.Buffers.{env_of};
ghost use Rattle.view.specs.Told.{binding_told};
ghost use Rattle.emits.specs.Marks.{set_of};
ghost use Rattle.emits.specs.Runs.{Emits};
ghost use Rattle.sema.specs.Holds.{VariantsIndexed};
ghost use Rattle.sema.specs.Signature.{sig_told};
ghost use Rattle.expr.specs.Between.{row_of, source_count, inner, call_head, before_parameter, after_parameter, opens, after_field, closes, begins, before_source, after_source, ends};
ghost use Rattle.expr.specs.Call.{called, called_told};
ghost use Rattle.expr.specs.Next.{NextIs, StepIs};
ghost use Rattle.expr.specs.Told.{bound_in};
ghost use Rattle.expr.specs.Writes.{NextPart, UpTo};

use super::Scope;
use super::call::called;
use emits::stablemapset::contains;
use expr_parts::consts::{emit_bool, emit_int};
use expr_parts::pieces::put_var;
use expr_parts::{
    argument, const_prim, field_head, mark_result, parameter_count, put_after, put_borrow,
    put_call_end, put_clone, type_name, variant_name,
};
use sema::signature::ExternalSig;
use sema::types::TypeId;
use text::sink::Sink;
use view::binding::Binding;
use view::bindings::Bindings;
use view::buffers::Plan;
use view::word_in;

// The source that is written next, which is below its binding, and the depth of its lines.
#[derive(Clone, Copy)]
pub struct Source {
    pub binding: usize,
    pub depth: usize,
}

// A call up to its parameters. The result is marked before they are written.
fn call_head(
    w: &mut Sink<'_>,
    plan: &Plan<'_, '_, '_>,
    refs: &mut [bool],
    b: usize,
    sig: ExternalSig,
)
    ensures { let env = env_of plan.now in (d : ℕ) → Emits env d (call_head env b (sig_told env sig)) w.old (set_of refs.old) w.new (set_of refs.new) }
{
    mark_result(w, plan, refs, b, sig);
    sig.put_full_name(w, plan);
    w.put_bytes(b"(ctx");
}

// ` {`, if there are fields.
fn open_fields(w: &mut Sink<'_>, sources: &[u32])
    ensures { (env : Environment) (d : ℕ) (m : Marks) → Emits env d (opens sources.now) w.old m w.new m }
{
    if !sources.is_empty() {
        w.put_bytes(b" {");
    }
}

// Before parameter i, of which it is known whether it is a reference, and after it.
fn before_parameter(
    w: &mut Sink<'_>,
    plan: &Plan<'_, '_, '_>,
    sig: ExternalSig,
    i: usize,
    given: bool,
)
    ensures { let env = env_of plan.now in (d : ℕ) (m : Marks) → Emits env d (before_parameter env (sig_told env sig) i given) w.old m w.new m }
{
    let wanted = sig.param_ty(plan, i).is_ref(plan);
    w.put_bytes(b", ");
    put_borrow(w, wanted, given);
}

fn after_parameter(
    w: &mut Sink<'_>,
    plan: &Plan<'_, '_, '_>,
    sig: ExternalSig,
    i: usize,
    given: bool,
)
    ensures { let env = env_of plan.now in (d : ℕ) (m : Marks) → Emits env d (after_parameter env (sig_told env sig) i given) w.old m w.new m }
{
    let wanted = sig.param_ty(plan, i).is_ref(plan);
    put_clone(w, wanted, given);
}

// After a field, of which it is known whether it is a reference.
fn after_field(w: &mut Sink<'_>, given: bool)
    ensures emits { (env : Environment) (d q : ℕ) (m : Marks) → contains m q ≡ given → Emits env d (after_field q) w.old m w.new m }
    ensures same { SameSink w.old w.new }
{
    put_clone(w, false, given);
    w.put_bytes(b",");
}

// The line that closes the fields, if there are fields.
fn close_fields(w: &mut Sink<'_>, depth: usize, sources: &[u32])
    ensures emits { (env : Environment) (d₀ d : ℕ) (m : Marks) → depth ≡ d₀ + d → Emits env d₀ (closes d sources.now) w.old m w.new m }
    ensures same { SameSink w.old w.new }
{
    if !sources.is_empty() {
        w.put_byte(b'\n');
        w.put_indent(depth);
        w.put_bytes(b"}");
    }
}

// A binding of a plan that has no name: its number, what it is, and its sources.
// No field for the signature that it calls: that it is the binding's would be a ghost field, and an equation of signatures is not known to be a
// proposition.
#[derive(Clone, Copy)]
struct BindingRow<'a> {
    plan: &'a Plan<'a, 'a, 'a>,
    number: usize,
    binding: Binding,
    sources: &'a [u32],
}

impl BindingRow<'_> {
    // The signature of what it calls, if it calls something.
    fn called(&self) -> Option<ExternalSig>
        ensures { let env = env_of self.now.plan.now in called_told env result ≡ called env (binding_told self.now.binding) }
    {
        called(self.plan, self.binding)
    }

    // All that stands before the first source. Constants and arguments have none: this is all of them.
    fn begin(&self, w: &mut Sink<'_>, refs: &mut [bool])
        ensures emits { let r = self.now in VariantsIndexed r.plan.now → let env = env_of r.plan.now in (d : ℕ) → Emits env d (begins env r.number (binding_told r.binding) r.sources.now) w.old (set_of refs.old) w.new (set_of refs.new) }
        ensures same { SameSink w.old w.new }
    {
        if let Some(sig) = self.called() {
            return call_head(w, self.plan, refs, self.number, sig);
        }
        match self.binding {
            Binding::ConstBool { val } => emit_bool(w, val),
            Binding::ConstInt { ty, val } => emit_int(w, TypeId(ty), val),
            Binding::ConstPrim { val } => const_prim(w, self.plan, val),
            Binding::Argument { index } => argument(w, index),
            Binding::MakeVariant { ty, variant } => {
                let variant = TypeId(ty).variant(self.plan, variant);
                variant_name(w, self.plan, TypeId(ty), variant.name);
                open_fields(w, self.sources);
            }
            Binding::MakeStruct { ty } => {
                type_name(w, self.plan, TypeId(ty));
                open_fields(w, self.sources);
            }
            Binding::MakeSome => w.put_bytes(b"Some("),
            _ => {}
        }
    }

    // How many sources are written.
    fn count_sources(&self) -> usize
        ensures { result ≡ source_count (env_of self.now.plan.now) (binding_told self.now.binding) self.now.sources.now }
    {
        if let Some(sig) = self.called() {
            return parameter_count(self.plan, self.sources, sig);
        }
        match self.binding {
            Binding::ConstBool { .. }
            | Binding::ConstInt { .. }
            | Binding::ConstPrim { .. }
            | Binding::Argument { .. } => 0,
            Binding::MakeVariant { .. } | Binding::MakeStruct { .. } => { self.sources.len() }
            _ => 1,
        }
    }

    // The depth of the sources' lines. One that no number counts has no room in any buffer.
    fn inner_depth(&self, depth: usize) -> usize
        ensures { depth < 4611686018427387904 → result ≡ inner (binding_told self.now.binding) depth }
    {
        match self.binding {
            Binding::MakeVariant { .. } | Binding::MakeStruct { .. } => depth.saturating_add(1),
            _ => depth,
        }
    }

    // Before source i.
    fn put_before(&self, w: &mut Sink<'_>, depth: usize, i: usize, given: bool)
        ensures emits { let r = self.now in VariantsIndexed r.plan.now → let env = env_of r.plan.now in (d₀ d : ℕ) (m : Marks) → depth ≡ d₀ + d → Emits env d₀ (before_source env d (binding_told r.binding) i given) w.old m w.new m }
        ensures same { SameSink w.old w.new }
    {
        if let Some(sig) = self.called() {
            return before_parameter(w, self.plan, sig, i, given);
        }
        match self.binding {
            Binding::MakeVariant { ty, variant } => {
                let variant = TypeId(ty).variant(self.plan, variant);
                field_head(w, self.plan, depth, &variant.fields, i)
            }
            Binding::MakeStruct { ty } => field_head(
                w,
                self.plan,
                depth,
                &TypeId(ty).fields(self.plan),
                i,
            ),
            _ => {}
        }
    }

    // After source i, which is q: a parameter goes by what was known before it was written, a field is asked about now.
    fn put_after_source(&self, w: &mut Sink<'_>, refs: &[bool], i: usize, q: usize, given: bool)
        ensures { let r = self.now in let env = env_of r.plan.now in (d : ℕ) → Emits env d (after_source env (binding_told r.binding) i q given) w.old (set_of refs.now) w.new (set_of refs.now) }
    {
        if let Some(sig) = self.called() {
            return after_parameter(w, self.plan, sig, i, given);
        }
        match self.binding {
            Binding::MakeVariant { .. } | Binding::MakeStruct { .. } => {
                after_field(w, contains(refs, q))
            }
            _ => put_after(w, refs, q, self.binding),
        }
    }

    // After the last source.
    fn finish(&self, w: &mut Sink<'_>, depth: usize)
        ensures emits { let r = self.now in let env = env_of r.plan.now in (d₀ d : ℕ) (m : Marks) → depth ≡ d₀ + d → Emits env d₀ (ends env d r.number (binding_told r.binding) r.sources.now) w.old m w.new m }
        ensures same { SameSink w.old w.new }
    {
        if let Some(sig) = self.called() {
            return put_call_end(w, self.number, sig);
        }
        if let Binding::MakeVariant { .. } | Binding::MakeStruct { .. } = self.binding {
            close_fields(w, depth, self.sources);
        }
    }

    // Up to source i, or to the end, from the start or from the end of the source before. A source that is not below its binding is none.
    #[inline(always)]
    fn put_next(&self, w: &mut Sink<'_>, refs: &[bool], depth: usize, i: usize) -> Option<Source>
        ensures source { let r = self.now in NextIs r.plan.now depth r.number (binding_told r.binding) r.sources.now i result }
        ensures written { let r = self.now in NextPart r.plan.now depth r.number (binding_told r.binding) r.sources.now i w.old (set_of refs.now) w.new (set_of refs.now) }
        ensures same { SameSink w.old w.new }
    {
        if self.count_sources() <= i {
            self.finish(w, depth);
            return None;
        }
        let q = word_in(self.sources, i) as usize;
        let below = self.inner_depth(depth);
        let given = contains(refs, q);
        self.put_before(w, below, i, given);
        (q < self.number).then_some(Source {
            binding: q,
            depth: below,
        })
    }
}

// Binding b, which has no name.
#[inline(always)]
fn nameless<'a>(bindings: &Bindings<'a>, b: usize) -> BindingRow<'a>
    ensures plan { result.plan.now ≡ bindings.now.plan.now }
    ensures number { result.number ≡ b }
    ensures binding { binding_told result.binding ≡ (row_of bindings.now b).binding }
    ensures sources { result.sources.now ≡ (row_of bindings.now b).sources }
{
    BindingRow {
        plan: bindings.plan,
        number: b,
        binding: bindings.binding(b),
        sources: bindings.sources(b),
    }
}

// The expression of a binding, whose own lines are `depth` deep, and how many of its sources are written.
#[derive(Clone, Copy)]
pub struct Expression {
    pub binding: usize,
    pub depth: usize,
    pub written: usize,
}

// Past the room nothing is written, so the time is bounded by the room.
#[tactic(auto, using(emits::specs::Runs::emits_past))]
impl Expression {
    // All up to the first source, or to the end. A binding that has a name is its name.
    #[inline(never)]
    pub fn begin(&self, w: &mut Sink<'_>, refs: &mut [bool], scope: &Scope<'_>) -> Option<Source>
        ensures source { StepIs scope.now self.now.depth self.now.binding 0 w.new result }
        ensures written { UpTo scope.now self.now.depth self.now.binding 0 false w.old (set_of refs.old) w.new (set_of refs.new) }
        ensures same { SameSink w.old w.new }
    {
        if w.end <= w.at {
            return None;
        }
        if contains(scope.bound, self.binding) {
            put_var(w, self.binding);
            return None;
        }
        let row = nameless(&scope.bindings, self.binding);
        row.begin(w, refs);
        row.put_next(w, refs, self.depth, 0)
    }

    // Now one more source is written, of which `given` says whether it was a reference before: all from its end up to the next source, or
    // to the end.
    #[inline(never)]
    pub fn go_on(
        &mut self,
        w: &mut Sink<'_>,
        refs: &mut [bool],
        scope: &Scope<'_>,
        given: bool,
    ) -> Option<Source>
        requires counted { self.old.written < 18446744073709551615 }
        requires nameless { contains (bound_in scope.now) self.old.binding ≡ false }
        ensures more { self.new ≡ record self.old { written = self.old.written + 1 } }
        ensures source { StepIs scope.now self.old.depth self.old.binding (self.old.written + 1) w.new result }
        ensures written { UpTo scope.now self.old.depth self.old.binding (self.old.written + 1) given w.old (set_of refs.old) w.new (set_of refs.new) }
        ensures same { SameSink w.old w.new }
    {
        let i = self.written;
        self.written += 1;
        if w.end <= w.at {
            return None;
        }
        let row = nameless(&scope.bindings, self.binding);
        let q = word_in(row.sources, i) as usize;
        row.put_after_source(w, refs, i, q, given);
        row.put_next(w, refs, self.depth, self.written)
    }
}
