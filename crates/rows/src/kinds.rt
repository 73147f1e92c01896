// The kinds of rows, by their names, and what the other values of a row are for each. The names are compared one by one: the default arm of
// a `match` on them knows of the bytes alone, and its proof does not close; a table of names searched by a loop has references in a constant
// and a proof over them, and is no plainer. What reads a name answers an Option: with `TryFrom` the error's
// type would say nothing. The numbers are those of the buffers' words (document 01); a word of no kind is read too, as the definition reads it.
ghost use Rattle.std.specs.Prelude.{◌≡◌, ℕ, List, Some, length, ltb, get_or, option_map};
ghost use Rattle.plan.specs.Lookup.{field_count};
ghost use Rattle.tokens.specs.Token.{told, place};
ghost use Rattle.cells.specs.Value.{kind_word};
ghost use Rattle.cells.specs.Cell.{cell_number, wide_number};
ghost use Rattle.cells.specs.Lists.{sort_number};
ghost use Rattle.rows.specs.Row.{type_kinds, type_bits, type_poss, type_lists, shape_kinds, shape_lists, binding_kinds, binding_as, binding_bs, block_kinds, block_as, block_bs, block_lists};
ghost use Rattle.rows.specs.View.{shape_of};
ghost use Rattle.rows.specs.Kinds.{type_number, type_kind, shape_number, shape_kind, binding_number, binding_kind, block_number, block_kind};

use cells::lists::ListOf;
use cells::values::{Cell, WideCell};

#[derive(Clone, Copy, PartialEq, Eq)]
pub enum TypeKind {
    Prim,
    Enum,
    Unit,
    Named,
    Tuple,
}

impl TypeKind {
    #[tactic(auto, unfolding(crate::specs::Row::type_kinds, text::specs::Split::split, tokens::specs::Token::place, tokens::specs::Token::told, cells::specs::Value::kind_word))]
    pub fn read(t: &[u8]) -> Option<TypeKind>
        ensures { option_map type_number result ≡ told (kind_word 5 (place type_kinds t.now)) }
    {
        if tokens::equal(t, b"prim") {
            Some(TypeKind::Prim)
        } else if tokens::equal(t, b"enum") {
            Some(TypeKind::Enum)
        } else if tokens::equal(t, b"unit") {
            Some(TypeKind::Unit)
        } else if tokens::equal(t, b"named") {
            Some(TypeKind::Named)
        } else if tokens::equal(t, b"tuple") {
            Some(TypeKind::Tuple)
        } else {
            None
        }
    }

    // What `extern` and `nodebug` are.
    pub fn bits(self) -> Cell
        ensures { cell_number result ≡ get_or type_bits (type_number self) 0 }
    {
        match self {
            TypeKind::Prim => Cell::Unused,
            _ => Cell::Bit,
        }
    }

    // The same of another column: a table for each, as in the definition.
    pub fn pos(self) -> Cell
        ensures { cell_number result ≡ get_or type_poss (type_number self) 0 }
    {
        match self {
            TypeKind::Enum | TypeKind::Unit | TypeKind::Named | TypeKind::Tuple => Cell::Number,
            _ => Cell::Unused,
        }
    }

    pub fn list(self) -> Option<ListOf>
        ensures { sort_number result ≡ get_or type_lists (type_number self) 0 }
    {
        match self {
            TypeKind::Named => Some(ListOf::Fields),
            TypeKind::Tuple => Some(ListOf::Numbers),
            _ => None,
        }
    }
}

impl From<TypeKind> for u32 {
    ghost from_gives = { λ kind n. n ≡ type_number kind };

    fn from(kind: TypeKind) -> u32 {
        kind as u32
    }
}

impl From<u32> for TypeKind {
    ghost from_gives = { λ n kind. kind ≡ type_kind n };

    fn from(n: u32) -> TypeKind {
        match n {
            0 => TypeKind::Prim,
            1 => TypeKind::Enum,
            2 => TypeKind::Unit,
            3 => TypeKind::Named,
            _ => TypeKind::Tuple,
        }
    }
}

// The shapes of variants.
#[derive(Clone, Copy, PartialEq, Eq)]
pub enum Shape {
    Unit,
    Named,
    Tuple,
}

impl Shape {
    #[tactic(auto, unfolding(crate::specs::Row::shape_kinds, text::specs::Split::split, tokens::specs::Token::place, tokens::specs::Token::told, cells::specs::Value::kind_word))]
    pub fn read(t: &[u8]) -> Option<Shape>
        ensures { option_map shape_number result ≡ told (kind_word 3 (place shape_kinds t.now)) }
    {
        if tokens::equal(t, b"unit") {
            Some(Shape::Unit)
        } else if tokens::equal(t, b"named") {
            Some(Shape::Named)
        } else if tokens::equal(t, b"tuple") {
            Some(Shape::Tuple)
        } else {
            None
        }
    }

    pub fn list(self) -> Option<ListOf>
        ensures { sort_number result ≡ get_or shape_lists (shape_number self) 0 }
    {
        match self {
            Shape::Unit => None,
            Shape::Named => Some(ListOf::Fields),
            Shape::Tuple => Some(ListOf::Numbers),
        }
    }

    // How many fields there are with a list of n words.
    #[tactic(auto, using(crate::proofs::Laws::fields_length), unfolding(crate::specs::View::shape_of))]
    pub fn field_count(self, n: usize) -> usize
        ensures { (ws : List ℕ) → n ≡ length ws → result ≡ field_count (shape_of (shape_number self) ws) }
    {
        match self {
            Shape::Unit => 0,
            Shape::Named => n / 2,
            Shape::Tuple => n,
        }
    }
}

impl From<Shape> for u32 {
    ghost from_gives = { λ kind n. n ≡ shape_number kind };

    fn from(kind: Shape) -> u32 {
        kind as u32
    }
}

impl From<u32> for Shape {
    ghost from_gives = { λ n kind. kind ≡ shape_kind n };

    fn from(n: u32) -> Shape {
        match n {
            0 => Shape::Unit,
            1 => Shape::Named,
            _ => Shape::Tuple,
        }
    }
}

#[derive(Clone, Copy, PartialEq, Eq)]
pub enum BindingKind {
    ConstBool,
    ConstInt,
    ConstPrim,
    Argument,
    Extractor,
    Constructor,
    Iterator,
    MakeVariant,
    MakeStruct,
    MakeSome,
    MatchSome,
    MatchTuple,
    MatchVariant,
    ExtractStruct,
}

impl BindingKind {
    #[tactic(auto, unfolding(crate::specs::Row::binding_kinds, text::specs::Split::split, tokens::specs::Token::place, tokens::specs::Token::told, cells::specs::Value::kind_word))]
    pub fn read(t: &[u8]) -> Option<BindingKind>
        ensures { option_map binding_number result ≡ told (kind_word 14 (place binding_kinds t.now)) }
    {
        if tokens::equal(t, b"bool") {
            Some(BindingKind::ConstBool)
        } else if tokens::equal(t, b"int") {
            Some(BindingKind::ConstInt)
        } else if tokens::equal(t, b"prim") {
            Some(BindingKind::ConstPrim)
        } else if tokens::equal(t, b"arg") {
            Some(BindingKind::Argument)
        } else if tokens::equal(t, b"extract") {
            Some(BindingKind::Extractor)
        } else if tokens::equal(t, b"construct") {
            Some(BindingKind::Constructor)
        } else if tokens::equal(t, b"iter") {
            Some(BindingKind::Iterator)
        } else if tokens::equal(t, b"variant") {
            Some(BindingKind::MakeVariant)
        } else if tokens::equal(t, b"struct") {
            Some(BindingKind::MakeStruct)
        } else if tokens::equal(t, b"some") {
            Some(BindingKind::MakeSome)
        } else if tokens::equal(t, b"matchsome") {
            Some(BindingKind::MatchSome)
        } else if tokens::equal(t, b"matchtuple") {
            Some(BindingKind::MatchTuple)
        } else if tokens::equal(t, b"matchvariant") {
            Some(BindingKind::MatchVariant)
        } else if tokens::equal(t, b"extractstruct") {
            Some(BindingKind::ExtractStruct)
        } else {
            None
        }
    }

    pub fn a(self) -> Cell
        ensures { cell_number result ≡ get_or binding_as (binding_number self) 0 }
    {
        match self {
            BindingKind::ConstBool => Cell::Bit,
            BindingKind::Iterator | BindingKind::MakeSome | BindingKind::MatchSome => Cell::Unused,
            BindingKind::MatchTuple | BindingKind::MatchVariant | BindingKind::ExtractStruct =>
                Cell::Field,
            _ => Cell::Number,
        }
    }

    pub fn b(self) -> WideCell
        ensures { wide_number result ≡ get_or binding_bs (binding_number self) 0 }
    {
        match self {
            BindingKind::ConstInt => WideCell::Integer,
            BindingKind::MakeVariant => WideCell::Narrow(Cell::Number),
            _ => WideCell::Narrow(Cell::Unused),
        }
    }
}

impl From<BindingKind> for u32 {
    ghost from_gives = { λ kind n. n ≡ binding_number kind };

    fn from(kind: BindingKind) -> u32 {
        kind as u32
    }
}

impl From<u32> for BindingKind {
    ghost from_gives = { λ n kind. kind ≡ binding_kind n };

    fn from(n: u32) -> BindingKind {
        match n {
            0 => BindingKind::ConstBool,
            1 => BindingKind::ConstInt,
            2 => BindingKind::ConstPrim,
            3 => BindingKind::Argument,
            4 => BindingKind::Extractor,
            5 => BindingKind::Constructor,
            7 => BindingKind::MakeVariant,
            8 => BindingKind::MakeStruct,
            9 => BindingKind::MakeSome,
            10 => BindingKind::MatchSome,
            11 => BindingKind::MatchTuple,
            12 => BindingKind::MatchVariant,
            13 => BindingKind::ExtractStruct,
            _ => BindingKind::Iterator,
        }
    }
}

// The kinds of steps, then those of arms.
#[derive(Clone, Copy, PartialEq, Eq)]
pub enum BlockKind {
    Match,
    Equal,
    Loop,
    Return,
    ConstBool,
    ConstInt,
    ConstPrim,
    Variant,
    Struct,
    Some,
}

impl BlockKind {
    #[tactic(auto, unfolding(crate::specs::Row::block_kinds, text::specs::Split::split, tokens::specs::Token::place, tokens::specs::Token::told, cells::specs::Value::kind_word))]
    pub fn read(t: &[u8]) -> Option<BlockKind>
        ensures { option_map block_number result ≡ told (kind_word 10 (place block_kinds t.now)) }
    {
        if tokens::equal(t, b"match") {
            Some(BlockKind::Match)
        } else if tokens::equal(t, b"equal") {
            Some(BlockKind::Equal)
        } else if tokens::equal(t, b"loop") {
            Some(BlockKind::Loop)
        } else if tokens::equal(t, b"return") {
            Some(BlockKind::Return)
        } else if tokens::equal(t, b"bool") {
            Some(BlockKind::ConstBool)
        } else if tokens::equal(t, b"int") {
            Some(BlockKind::ConstInt)
        } else if tokens::equal(t, b"prim") {
            Some(BlockKind::ConstPrim)
        } else if tokens::equal(t, b"variant") {
            Some(BlockKind::Variant)
        } else if tokens::equal(t, b"struct") {
            Some(BlockKind::Struct)
        } else if tokens::equal(t, b"some") {
            Some(BlockKind::Some)
        } else {
            None
        }
    }

    // Whether a row of this kind is a step, and no arm.
    pub fn is_step(self) -> bool
        ensures { result ≡ ltb (block_number self) 4 }
    {
        matches!(
            self,
            BlockKind::Match | BlockKind::Equal | BlockKind::Loop | BlockKind::Return
        )
    }

    pub fn a(self) -> Cell
        ensures { cell_number result ≡ get_or block_as (block_number self) 0 }
    {
        match self {
            BlockKind::ConstBool => Cell::Bit,
            BlockKind::Some => Cell::Unused,
            _ => Cell::Number,
        }
    }

    pub fn b(self) -> WideCell
        ensures { wide_number result ≡ get_or block_bs (block_number self) 0 }
    {
        match self {
            BlockKind::ConstInt => WideCell::Integer,
            BlockKind::Equal | BlockKind::Return | BlockKind::Variant => WideCell::Narrow(
                Cell::Number,
            ),
            _ => WideCell::Narrow(Cell::Unused),
        }
    }

    pub fn list(self) -> ListOf
        ensures { sort_number (Some result) ≡ get_or block_lists (block_number self) 0 }
    {
        match self {
            BlockKind::Match | BlockKind::Equal | BlockKind::Loop | BlockKind::Return =>
                ListOf::Numbers,
            _ => ListOf::Patterns,
        }
    }
}

impl From<BlockKind> for u32 {
    ghost from_gives = { λ kind n. n ≡ block_number kind };

    fn from(kind: BlockKind) -> u32 {
        kind as u32
    }
}

impl From<u32> for BlockKind {
    ghost from_gives = { λ n kind. kind ≡ block_kind n };

    fn from(n: u32) -> BlockKind {
        match n {
            0 => BlockKind::Match,
            1 => BlockKind::Equal,
            2 => BlockKind::Loop,
            3 => BlockKind::Return,
            4 => BlockKind::ConstBool,
            5 => BlockKind::ConstInt,
            6 => BlockKind::ConstPrim,
            7 => BlockKind::Variant,
            8 => BlockKind::Struct,
            _ => BlockKind::Some,
        }
    }
}
