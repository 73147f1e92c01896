// Fields of structs and variants: the shape, and the words of their list.
ghost use Rattle.std.specs.Prelude.{◌≡◌, ℕ, get_or};
ghost use Rattle.text.specs.Writes.{Writes};
ghost use Rattle.plan.specs.Lookup.{field_count};
ghost use Rattle.rows.specs.View.{fields_in};
ghost use Rattle.codegen.specs.Piece.{bytes};
ghost use Rattle.codegen.specs.Sema.{field_name, field_type};
ghost use Rattle.view.specs.Buffers.{env_of};
ghost use Rattle.sema.specs.Fields.{fields_read};

use super::texts::{Text, put_text};
use super::types::TypeId;
use rows::kinds::Shape;
use text::sink::Sink;
use view::buffers::Plan;
use view::word_in;

#[derive(Clone, Copy)]
pub struct Fields<'a> {
    pub shape: Shape,
    pub list: &'a [u32],
}

#[derive(Clone, Copy)]
pub struct Variant<'a> {
    pub name: usize,
    pub fields: Fields<'a>,
}

// A named field: the numbers of its name and of its type.
#[derive(Clone, Copy)]
struct Field {
    name: usize,
    ty: usize,
}

impl Fields<'_> {
    // How many there are.
    #[tactic(auto, using(view::proofs::Made::fields_numbered))]
    pub fn count(&self) -> usize
        ensures { result ≡ field_count (fields_read self.now) }
    {
        self.shape.field_count(self.list.len())
    }

    // The named field i; each has two words.
    fn named(&self, i: usize) -> Field
        ensures { let f = get_or (fields_in self.now.list.now) i (record { name = 0; ty = 0 }) in (result.name ≡ f.name) × (result.ty ≡ f.ty) }
    {
        match self.list.as_chunks::<2>().0.get(i) {
            Some([name, ty]) => Field {
                name: *name as usize,
                ty: *ty as usize,
            },
            None => Field { name: 0, ty: 0 },
        }
    }

    // The type of the field i.
    #[tactic(auto, unfolding(codegen::specs::Sema::field_type))]
    pub fn ty(&self, i: usize) -> TypeId
        ensures { result.0 ≡ field_type (fields_read self.now) i }
    {
        TypeId(match self.shape {
            Shape::Unit => 0,
            Shape::Named => self.named(i).ty,
            Shape::Tuple => word_in(self.list, i) as usize,
        })
    }

    // Its name, put into the sink; in a tuple it is its number.
    #[tactic(auto, unfolding(codegen::specs::Sema::field_name, codegen::specs::Piece::bytes))]
    pub fn put_name(&self, w: &mut Sink<'_>, plan: &Plan<'_, '_, '_>, i: usize)
        ensures { let env = env_of plan.now in (d : ℕ) → Writes (bytes env d (field_name (fields_read self.now) i)) w.old w.new }
    {
        match self.shape {
            Shape::Named => put_text(w, plan, Text::Sym, self.named(i).name),
            Shape::Unit | Shape::Tuple => w.put_decimal(i as u64),
        }
    }
}
