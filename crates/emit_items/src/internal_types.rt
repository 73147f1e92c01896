// `generate_internal_types` of codegen.rs 394, with `generate_fields`.
ghost use Rattle.std.specs.Prelude.{◌≡◌, ℕ, suc, List, [], ◌∷◌};
ghost use Rattle.text.specs.Writes.{SameSink};
ghost use Rattle.plan.specs.Plan.{Environment, Field, named, tuple};
ghost use Rattle.plan.specs.Lookup.{type_at, variants_of, variant_at};
ghost use Rattle.view.specs.Buffers.{env_of};
ghost use Rattle.view.specs.Told.{fields_told, declared_told};
ghost use Rattle.codegen.specs.Piece.{unbrace, break};
ghost use Rattle.codegen.specs.Items.{join, named_fields, tuple_fields, generate_fields, all_unit, type_head, variant_lines, enum_type, struct_end, struct_type, internal_type, generate_internal_types};
ghost use Rattle.emits.specs.Sinks.{Shows};
ghost use Rattle.sema.specs.Holds.{VariantsIndexed};
ghost use Rattle.sema.specs.Fields.{fields_read};
ghost use Rattle.emit_items.specs.Parts.{depth, field_start, named_field, tuple_field, derives, variant_line};

use crate::ctx_trait::put_separator;
use literal::builtin_type::BuiltinType;
use rows::kinds::Shape;
use sema::fields::Fields;
use sema::texts::{Text, put_text};
use sema::types::TypeId;
use text::sink::Sink;
use view::buffers::Plan;
use view::environment::{Declared, TypeData};
use view::tables::TYPES;

// Fields as they are written: those of a struct may be `pub`; those of a variant stand one step deeper.
#[derive(Clone, Copy)]
struct WrittenFields<'a> {
    fields: Fields<'a>,
    allow_pub: bool,
}

// What stands before and after fields, and named and tuple fields, are other texts: the functions for them are alike in form alone.
impl WrittenFields<'_> {
    #[tactic(auto, using(crate::proofs::Lists::at_once), unfolding(codegen::specs::Piece::render, codegen::specs::Piece::bytes, codegen::specs::Piece::indent, text::specs::Sink::spaces))]
    fn field_start(&self, w: &mut Sink<'_>)
        ensures { (env : Environment) → Shows env 0 (field_start self.now.allow_pub) w.old w.new }
    {
        if self.allow_pub {
            w.put_bytes(b"\n    pub ");
        } else {
            w.put_bytes(b"\n        ");
        }
    }

    fn named_field(&self, w: &mut Sink<'_>, plan: &Plan<'_, '_, '_>, i: usize)
        ensures { Shows (env_of plan.now) 0 (named_field self.now.allow_pub (fields_read self.now.fields) i) w.old w.new }
    {
        self.field_start(w);
        self.fields.put_name(w, plan, i);
        w.put_bytes(b": ");
        self.fields.ty(i).put_name(w, plan);
        w.put_bytes(b",");
    }

    fn named_fields(&self, w: &mut Sink<'_>, plan: &Plan<'_, '_, '_>)
        ensures { let a = self.now.allow_pub in (fs : List Field) → fields_read self.now.fields ≡ named fs → Shows (env_of plan.now) 0 (named_fields a (suc (depth a)) fs) w.old w.new }
    {
        for i in 0..self.fields.count() {
            self.named_field(w, plan, i);
        }
    }

    fn tuple_field(&self, w: &mut Sink<'_>, plan: &Plan<'_, '_, '_>, i: usize)
        ensures { Shows (env_of plan.now) 0 (tuple_field self.now.allow_pub (fields_read self.now.fields) i) w.old w.new }
    {
        put_separator(w, i);
        if self.allow_pub {
            w.put_bytes(b"pub ");
        }
        self.fields.ty(i).put_name(w, plan);
    }

    fn tuple_fields(&self, w: &mut Sink<'_>, plan: &Plan<'_, '_, '_>)
        ensures { (ns : List ℕ) → fields_read self.now.fields ≡ tuple ns → Shows (env_of plan.now) 0 (join (tuple_fields self.now.allow_pub ns)) w.old w.new }
    {
        for i in 0..self.fields.count() {
            self.tuple_field(w, plan, i);
        }
    }

    #[tactic(auto, using(crate::proofs::Lists::at_once), unfolding(codegen::specs::Piece::render, codegen::specs::Piece::bytes, codegen::specs::Piece::indent, text::specs::Sink::spaces))]
    fn fields_end(&self, w: &mut Sink<'_>)
        ensures { (env : Environment) → Shows env 0 (break (depth self.now.allow_pub) ∷ unbrace ∷ []) w.old w.new }
    {
        if self.allow_pub {
            w.put_bytes(b"\n}");
        } else {
            w.put_bytes(b"\n    }");
        }
    }

    // `generate_fields` of codegen.rs 473.
    fn generate_fields(&self, w: &mut Sink<'_>, plan: &Plan<'_, '_, '_>)
        ensures { let a = self.now.allow_pub in Shows (env_of plan.now) 0 (generate_fields a (depth a) (fields_read self.now.fields)) w.old w.new }
    {
        match self.fields.shape {
            Shape::Unit => {}
            Shape::Named => {
                w.put_bytes(b" {");
                self.named_fields(w, plan);
                self.fields_end(w);
            }
            Shape::Tuple => {
                w.put_bytes(b"(");
                self.tuple_fields(w, plan);
                w.put_bytes(b")");
            }
        }
    }
}

// Whether no variant of an enum has fields.
fn all_unit(plan: &Plan<'_, '_, '_>, ty: TypeId) -> bool
    ensures { VariantsIndexed plan.now → result ≡ all_unit (variants_of ty.0 (env_of plan.now).variants) }
{
    (0..ty.variant_count(plan)).all(|k| ty.variant(plan, k).fields.shape == Shape::Unit)
}

// Copy only where nothing has fields.
fn put_derives(w: &mut Sink<'_>, copy: bool, nodebug: bool)
    ensures { (env : Environment) → Shows env 0 (derives copy nodebug) w.old w.new }
{
    if copy {
        w.put_bytes(b"\n#[derive(Copy, Clone, PartialEq, Eq");
    } else {
        w.put_bytes(b"\n#[derive(Clone");
    }
    if !nodebug {
        w.put_bytes(b", Debug");
    }
    w.put_bytes(b")]\n");
}

// The comment and the `derive`s.
fn type_head(w: &mut Sink<'_>, plan: &Plan<'_, '_, '_>, d: Declared, copy: bool)
    ensures { Shows (env_of plan.now) 0 (type_head (declared_told d) copy) w.old w.new }
{
    w.put_bytes(b"\n/// Internal type ");
    put_text(w, plan, Text::Sym, d.name);
    w.put_bytes(b": defined at ");
    put_text(w, plan, Text::Pos, d.pos);
    w.put_bytes(b".");
    put_derives(w, copy, d.is_nodebug);
}

// The variant k of an enum.
fn variant_line(w: &mut Sink<'_>, plan: &Plan<'_, '_, '_>, ty: TypeId, k: usize)
    ensures shows { VariantsIndexed plan.now → let env = env_of plan.now in Shows env 0 (variant_line (variant_at env ty.0 k)) w.old w.new }
    ensures same { SameSink w.old w.new }
{
    let v = ty.variant(plan, k);
    w.put_bytes(b"\n    ");
    put_text(w, plan, Text::Sym, v.name);
    let fields = WrittenFields {
        fields: v.fields,
        allow_pub: false,
    };
    fields.generate_fields(w, plan);
    w.put_bytes(b",");
}

fn variant_lines(w: &mut Sink<'_>, plan: &Plan<'_, '_, '_>, ty: TypeId)
    ensures shows { VariantsIndexed plan.now → let env = env_of plan.now in Shows env 0 (variant_lines (variants_of ty.0 env.variants)) w.old w.new }
    ensures same { SameSink w.old w.new }
{
    for k in 0..ty.variant_count(plan) {
        variant_line(w, plan, ty, k);
    }
}

fn enum_type(w: &mut Sink<'_>, plan: &Plan<'_, '_, '_>, d: Declared, ty: TypeId)
    ensures shows { VariantsIndexed plan.now → let env = env_of plan.now in Shows env 0 (enum_type (declared_told d) (variants_of ty.0 env.variants)) w.old w.new }
    ensures same { SameSink w.old w.new }
{
    let copy = all_unit(plan, ty);
    type_head(w, plan, d, copy);
    w.put_bytes(b"pub enum ");
    put_text(w, plan, Text::Sym, d.name);
    w.put_bytes(b" {");
    variant_lines(w, plan, ty);
    w.put_bytes(b"\n}\n");
}

// A struct with fields ends without a newline; the next item's leading newline ends it.
fn struct_end(w: &mut Sink<'_>, s: Shape)
    ensures { (env : Environment) (ws : List ℕ) → Shows env 0 (struct_end (fields_told s ws)) w.old w.new }
{
    match s {
        Shape::Unit => w.put_bytes(b";\n"),
        Shape::Named => {}
        Shape::Tuple => w.put_bytes(b";"),
    }
}

fn struct_type(w: &mut Sink<'_>, plan: &Plan<'_, '_, '_>, d: Declared, f: &Fields<'_>)
    ensures { Shows (env_of plan.now) 0 (struct_type (declared_told d) (fields_read f.now)) w.old w.new }
{
    type_head(w, plan, d, f.shape == Shape::Unit);
    w.put_bytes(b"pub struct ");
    put_text(w, plan, Text::Sym, d.name);
    let fields = WrittenFields {
        fields: *f,
        allow_pub: true,
    };
    fields.generate_fields(w, plan);
    struct_end(w, f.shape);
}

// External types are written elsewhere.
fn internal_type(w: &mut Sink<'_>, plan: &Plan<'_, '_, '_>, ty: TypeId)
    ensures shows { VariantsIndexed plan.now → let env = env_of plan.now in Shows env 0 (internal_type env ty.0 (type_at env ty.0)) w.old w.new }
    ensures same { SameSink w.old w.new }
{
    let data = ty.data(plan);
    match data.ty {
        TypeData::Builtin(_) | TypeData::Primitive(_) => {}
        TypeData::Enum(d) => {
            if !d.is_extern {
                enum_type(w, plan, d, ty);
            }
        }
        TypeData::Struct(d, shape) => {
            if !d.is_extern {
                let fields = Fields {
                    shape,
                    list: data.list,
                };
                struct_type(w, plan, d, &fields);
            }
        }
    }
}

// The builtin types, which come first, write nothing.
pub fn generate_internal_types(w: &mut Sink<'_>, plan: &Plan<'_, '_, '_>)
    ensures shows { VariantsIndexed plan.now → let env = env_of plan.now in Shows env 0 (generate_internal_types env 0 env.types) w.old w.new }
    ensures same { SameSink w.old w.new }
{
    for n in BuiltinType::COUNT..BuiltinType::COUNT + plan.row_count(TYPES) {
        internal_type(w, plan, TypeId(n));
    }
}
