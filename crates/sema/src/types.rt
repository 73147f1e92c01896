// Types by their number: `TypeEnv` of sema.rs, and `ty` of codegen.rs 610.
ghost use Rattle.std.specs.Prelude.{◌≡◌, List, ℕ, length};
ghost use Rattle.text.specs.Writes.{Writes};
ghost use Rattle.literal.specs.BuiltinType.{builtin_int};
ghost use Rattle.plan.specs.Plan.{Environment};
ghost use Rattle.plan.specs.Lookup.{type_at, variants_of, variant_at, fields_of};
ghost use Rattle.codegen.specs.Piece.{type_text};
ghost use Rattle.codegen.specs.Sema.{is_ref, int_type};
ghost use Rattle.view.specs.Buffers.{env_of};
ghost use Rattle.view.specs.declared.buffers.Plan.{Plan};
ghost use Rattle.sema.specs.Holds.{VariantsIndexed, SameVariants};
ghost use Rattle.sema.specs.Fields.{fields_read};
ghost use Rattle.sema.specs.Types.{type_read, param_text};

use super::fields::{Fields, Variant};
use super::texts::{Text, put_text};
use literal::builtin_type::BuiltinType;
use rows::kinds::{Shape, TypeKind};
use text::sink::Sink;
use view::buffers::Plan;
use view::environment::TypeData;
use view::heads::{TYPE_HEAD, VARIANT_HEAD};

// A type, and the list of its row, which has a struct's fields.
#[derive(Clone, Copy)]
pub struct TypeRow<'a> {
    pub ty: TypeData,
    pub list: &'a [u32],
}

// `TypeId` of sema.rs: a type by its number.
#[derive(Clone, Copy, PartialEq, Eq)]
pub struct TypeId(pub usize);

impl TypeId {
    // The type: a builtin one has no row, nor has one that doesn't exist, which is taken for `bool`.
    pub fn data<'w>(self, plan: &Plan<'_, 'w, '_>) -> TypeRow<'w>
        ensures { type_read result ≡ type_at (env_of plan.now) self.0 }
    {
        match plan.type_row(self.0) {
            None => TypeRow {
                ty: TypeData::Builtin(BuiltinType::from_index(self.0)),
                list: &[],
            },
            Some(row) => TypeRow {
                ty: plan.type_at(row),
                list: plan.list(row, TYPE_HEAD),
            },
        }
    }

    // `ty` of codegen.rs 610: whether a value of the type is passed by reference. A `match`: of a closure that holds the plan, `is_some_and`
    // says nothing about its answer.
    #[tactic(auto, using(crate::proofs::Laws::row_ref), unfolding(codegen::specs::Sema::is_ref_type))]
    pub fn is_ref(self, plan: &Plan<'_, '_, '_>) -> bool
        ensures { result ≡ is_ref (env_of plan.now) self.0 }
    {
        match plan.type_row(self.0) {
            None => false,
            Some(row) => TypeKind::from(plan.cell(row, 0)) != TypeKind::Prim,
        }
    }

    // The builtin type that a literal of the type is written as: `bool` stands for each type that is no integer type.
    #[tactic(auto, using(crate::proofs::Laws::int_read))]
    pub fn int_type(self) -> BuiltinType
        ensures { (p : Plan) → builtin_int result ≡ int_type (type_at (env_of p) self.0) }
    {
        BuiltinType::from_index(self.0)
    }

    // `Type::name` of sema.rs 310, put into the sink.
    #[tactic(auto, using(crate::proofs::Laws::named_by), unfolding(codegen::specs::Piece::type_text))]
    pub fn put_name(self, w: &mut Sink<'_>, plan: &Plan<'_, '_, '_>)
        ensures { let env = env_of plan.now in Writes (type_text env (type_at env self.0)) w.old w.new }
    {
        match plan.type_row(self.0) {
            None => BuiltinType::from_index(self.0).put_name(w),
            Some(row) => put_text(w, plan, Text::Sym, plan.word(row, 1)),
        }
    }

    // The type of a parameter: its name, after `&` where it is passed by reference.
    #[tactic(auto, using(text::specs::Writes::writes_then))]
    pub fn put_param(self, w: &mut Sink<'_>, plan: &Plan<'_, '_, '_>)
        ensures { Writes (param_text (env_of plan.now) self.0) w.old w.new }
    {
        if self.is_ref(plan) {
            w.put_bytes(b"&");
        }
        self.put_name(w, plan);
    }

    // The fields of a struct: none if it is another type.
    pub fn fields<'w>(self, plan: &Plan<'_, 'w, '_>) -> Fields<'w>
        ensures { fields_read result ≡ fields_of (type_at (env_of plan.now) self.0) }
    {
        let data = self.data(plan);
        let shape = match data.ty {
            TypeData::Struct(_, shape) => shape,
            _ => Shape::Unit,
        };
        Fields {
            shape,
            list: data.list,
        }
    }

    // How many variants an enum has: the index has places for 256 types, and no other type has variants.
    #[tactic(auto, using(crate::proofs::Laws::variants_counted, crate::proofs::Laws::variants_none))]
    pub fn variant_count(self, plan: &Plan<'_, '_, '_>) -> usize
        ensures own { VariantsIndexed plan.now → result ≡ length (variants_of self.0 (env_of plan.now).variants) }
        ensures any { (p : Plan) → p.index.now ≡ plan.now.index.now → VariantsIndexed p → result ≡ length (variants_of self.0 (env_of p).variants) }
    {
        if self.0 < 256 {
            plan.variant_count(self.0)
        } else {
            0
        }
    }

    // The variant k of an enum.
    pub fn variant<'w>(self, plan: &Plan<'_, 'w, '_>, k: usize) -> Variant<'w>
        ensures own { VariantsIndexed plan.now → let v = variant_at (env_of plan.now) self.0 k in (result.name ≡ v.name) × (fields_read result.fields ≡ v.fields) }
        ensures any { (p : Plan) → SameVariants plan.now p → VariantsIndexed p → let v = variant_at (env_of p) self.0 k in (result.name ≡ v.name) × (fields_read result.fields ≡ v.fields) }
    {
        if self.variant_count(plan) <= k {
            return Variant {
                name: 0,
                fields: Fields {
                    shape: Shape::Unit,
                    list: &[],
                },
            };
        }
        let row = plan.variant_row(self.0, k);
        let variant = plan.variant_at(row);
        Variant {
            name: variant.name,
            fields: Fields {
                shape: variant.shape,
                list: plan.list(row, VARIANT_HEAD),
            },
        }
    }
}
