// `IntType` and `BuiltinType` of sema.rs. The type itself gives its count, order, name and signedness.
ghost use Rattle.std.specs.Prelude.{◌≡◌, get_or};
ghost use Rattle.text.specs.Codes.{codes};
ghost use Rattle.text.specs.Writes.{Writes};
ghost use Rattle.literal.specs.BuiltinType.{all, int_name, name, is_signed, to_usize};

use text::sink::Sink;

#[derive(Clone, Copy, PartialEq, Eq)]
pub enum IntType {
    U8,
    U16,
    U32,
    U64,
    U128,
    USize,
    I8,
    I16,
    I32,
    I64,
    I128,
    ISize,
}

// sema.rs's own enum, and so no Option of an integer type.
#[derive(Clone, Copy, PartialEq, Eq)]
pub enum BuiltinType {
    Bool,
    Int(IntType),
}

impl IntType {
    // A table of texts.
    pub fn name(self) -> &'static [u8]
        ensures { result.now ≡ codes (int_name self) }
    {
        match self {
            IntType::U8 => b"u8",
            IntType::U16 => b"u16",
            IntType::U32 => b"u32",
            IntType::U64 => b"u64",
            IntType::U128 => b"u128",
            IntType::USize => b"usize",
            IntType::I8 => b"i8",
            IntType::I16 => b"i16",
            IntType::I32 => b"i32",
            IntType::I64 => b"i64",
            IntType::I128 => b"i128",
            IntType::ISize => b"isize",
        }
    }

    // The name, put into the sink.
    pub fn put_name(self, w: &mut Sink<'_>)
        ensures { Writes (codes (int_name self)) w.old w.new }
    {
        w.put_bytes(self.name());
    }

    pub fn is_signed(self) -> bool
        ensures { result ≡ is_signed self }
    {
        matches!(
            self,
            IntType::I8
                | IntType::I16
                | IntType::I32
                | IntType::I64
                | IntType::I128
                | IntType::ISize
        )
    }
}

impl BuiltinType {
    pub const COUNT: usize = 13;

    pub const ALL: [BuiltinType; BuiltinType::COUNT] = [
        BuiltinType::Bool,
        BuiltinType::Int(IntType::U8),
        BuiltinType::Int(IntType::U16),
        BuiltinType::Int(IntType::U32),
        BuiltinType::Int(IntType::U64),
        BuiltinType::Int(IntType::U128),
        BuiltinType::Int(IntType::USize),
        BuiltinType::Int(IntType::I8),
        BuiltinType::Int(IntType::I16),
        BuiltinType::Int(IntType::I32),
        BuiltinType::Int(IntType::I64),
        BuiltinType::Int(IntType::I128),
        BuiltinType::Int(IntType::ISize),
    ];

    // The type with the number i; a number past the last one is given the first, which is no integer type.
    pub fn from_index(i: usize) -> BuiltinType
        ensures { result ≡ get_or all i BuiltinType.Bool }
    {
        BuiltinType::ALL
            .get(i)
            .copied()
            .unwrap_or(BuiltinType::Bool)
    }

    // The number of the type: its place in `ALL`. No `From`: it publishes sema.rs's own function, under its name.
    pub fn to_usize(self) -> usize
        ensures { result ≡ to_usize self }
    {
        match self {
            BuiltinType::Bool => 0,
            BuiltinType::Int(ty) => 1 + ty as usize,
        }
    }

    // The name, put into the sink.
    pub fn put_name(self, w: &mut Sink<'_>)
        ensures { Writes (codes (name self)) w.old w.new }
    {
        match self {
            BuiltinType::Bool => w.put_bytes(b"bool"),
            BuiltinType::Int(ty) => ty.put_name(w),
        }
    }
}
