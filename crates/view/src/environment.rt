// Types and terms: `Type` and `Term` of sema.rs.
ghost use Rattle.std.specs.Prelude.{◌≡◌, ℕ, List, drop};
ghost use Rattle.rows.specs.View.{declared_of, function_of, shape_of, type_of, variant_of, term_of};
ghost use Rattle.view.specs.Kinds.{type_by};
ghost use Rattle.view.specs.Told.{function_told, declared_told, fields_told, type_told, variant_told, term_told};

use super::word_in;
use literal::builtin_type::BuiltinType;
use rows::kinds::{Shape, TypeKind};

// A term's constructor or extractor. No Option: document 01 has `absent` as one of three words, and of the other two in an Option it would
// take two matches to tell.
#[derive(Clone, Copy)]
pub enum FunctionKind {
    Absent,
    Internal,
    External { name: usize },
}

// What an enum and a struct have in common.
#[derive(Clone, Copy)]
pub struct Declared {
    pub name: usize,
    pub is_extern: bool,
    pub is_nodebug: bool,
    pub pos: usize,
}

#[derive(Clone, Copy)]
pub enum TypeData {
    Builtin(BuiltinType),
    Primitive(usize),
    Enum(Declared),
    Struct(Declared, Shape),
}

// A variant, without its fields, which are the row's list.
#[derive(Clone, Copy)]
pub struct Variant {
    pub ty: usize,
    pub name: usize,
    pub shape: Shape,
}

// A term, without the types of its arguments, which are the row's list. Those who read a single cell read it by its number in the row: the cells
// stand in the order of these names, which the line of names has too (`names` of the crate layout).
#[derive(Clone, Copy)]
pub struct Term {
    pub name: usize,
    pub pos: usize,
    pub ret_ty: usize,
    pub multi: bool,
    pub partial: bool,
    pub ctor: FunctionKind,
    pub xtor: FunctionKind,
    pub infallible: bool,
}

// The function kind that a word says: the reader's 0 and 1, or two more than a name's number.
impl From<u32> for FunctionKind {
    ghost from_gives = { λ word kind. function_told kind ≡ function_of word };

    #[tactic(auto, unfolding(rows::specs::View::function_of))]
    fn from(word: u32) -> FunctionKind {
        match word {
            0 => FunctionKind::Absent,
            1 => FunctionKind::Internal,
            _ => FunctionKind::External {
                name: (word - 2) as usize,
            },
        }
    }
}

// The shape that a number says.
#[tactic(auto, using(crate::proofs::Made::shape_capped))]
pub fn shape_made(k: usize) -> Shape
    ensures { (ws : List ℕ) → fields_told result ws ≡ shape_of k ws }
{
    Shape::from(k.min(2) as u32)
}

// What an enum's and a struct's words say; the name is a primitive type's too.
fn declared_in(row: &[u32]) -> Declared
    ensures { declared_told result ≡ declared_of row.now }
{
    Declared {
        name: word_in(row, 1) as usize,
        is_extern: word_in(row, 2) == 1,
        is_nodebug: word_in(row, 3) == 1,
        pos: word_in(row, 4) as usize,
    }
}

impl TypeData {
    // The type of a kind, of a row's words: a function of its own, whose arms prove without a lemma.
    fn of_kind(kind: TypeKind, row: &[u32]) -> TypeData
        ensures { type_told result (drop 5 row.now) ≡ type_by kind row.now }
    {
        let declared = declared_in(row);
        match kind {
            TypeKind::Prim => TypeData::Primitive(declared.name),
            TypeKind::Enum => TypeData::Enum(declared),
            TypeKind::Unit => TypeData::Struct(declared, Shape::Unit),
            TypeKind::Named => TypeData::Struct(declared, Shape::Named),
            TypeKind::Tuple => TypeData::Struct(declared, Shape::Tuple),
        }
    }
}

// The type of a row's words; its fields are the list after five words. It looks like the conversions of `block`, and each is one line over
// that of another type.
impl From<&[u32]> for TypeData {
    ghost from_gives = { λ row ty. type_told ty (drop 5 row.now) ≡ type_of row.now };

    #[tactic(auto, using(crate::proofs::Made::type_by_kind))]
    fn from(row: &[u32]) -> TypeData {
        TypeData::of_kind(TypeKind::from(word_in(row, 0)), row)
    }
}

// The variant of a row's words; its fields are the list after three words.
impl From<&[u32]> for Variant {
    ghost from_gives = { λ row variant. variant_told variant (drop 3 row.now) ≡ variant_of row.now };

    #[tactic(auto, unfolding(rows::specs::View::variant_of))]
    fn from(row: &[u32]) -> Variant {
        Variant {
            ty: word_in(row, 0) as usize,
            name: word_in(row, 1) as usize,
            shape: shape_made(word_in(row, 2) as usize),
        }
    }
}

// The term of a row's words; the types of its arguments are the list after eight words.
impl From<&[u32]> for Term {
    ghost from_gives = { λ row term. term_told term (drop 8 row.now) ≡ term_of row.now };

    #[tactic(auto, unfolding(rows::specs::View::term_of))]
    fn from(row: &[u32]) -> Term {
        Term {
            name: word_in(row, 0) as usize,
            pos: word_in(row, 1) as usize,
            ret_ty: word_in(row, 2) as usize,
            multi: word_in(row, 3) == 1,
            partial: word_in(row, 4) == 1,
            ctor: FunctionKind::from(word_in(row, 5)),
            xtor: FunctionKind::from(word_in(row, 6)),
            infallible: word_in(row, 7) == 1,
        }
    }
}
