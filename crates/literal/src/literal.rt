// Integer literals, as codegen.rs writes them. A value of 128 bits, the crate's i128 `val` as its two's complement, is given in
// two halves.
ghost use Rattle.std.specs.Prelude.{◌≡◌, ◌+◌, ◌-◌, ◌%◌, ◌^◌, ◌≤◌, ◌<◌, ◌++◌, cond, leb};
ghost use Rattle.text.specs.Codes.{codes};
ghost use Rattle.text.specs.Digits.{hexadecimal};
ghost use Rattle.text.specs.Wide.{whole};
ghost use Rattle.text.specs.Writes.{Writes};
ghost use Rattle.literal.specs.BuiltinType.{is_signed, bits, builtin_int};
ghost use Rattle.literal.specs.Literal.{written_bits, rust_int_literal, literal, in_range, odd};
ghost use Rattle.literal.specs.CastLaws.{number_text};
ghost use Rattle.literal.specs.Extend.{extend_bits};

use super::builtin_type::{BuiltinType, IntType};
use text::number::Wide;
use text::sink::Sink;

// The two's complement n of a type with 2 * half values: the sign bit is copied to the left.
fn sign_extended(n: u64, half: u64) -> Wide
    requires { (1 ≤ half) × (half ≤ 2 ^ 63) × (n < half + half) }
    ensures { whole result ≡ cond (leb half n) (n + (2 ^ 128 - (half + half))) n }
{
    if n < half {
        return Wide::from(n);
    }
    Wide {
        high: u64::MAX,
        low: n + (u64::MAX - half - (half - 1)),
    }
}

// The value cast to the type, and back to 128 bits; one of `usize` or `isize` is not cast.
fn cast(ty: IntType, val: Wide) -> Wide
    ensures { whole result ≡ extend_bits (is_signed ty) (written_bits ty) (whole val % 2 ^ written_bits ty) }
{
    match ty {
        IntType::U8 => Wide::from(val.low % 256),
        IntType::U16 => Wide::from(val.low % 65536),
        IntType::U32 => Wide::from(val.low % 4294967296),
        IntType::U64 => Wide::from(val.low),
        IntType::I8 => sign_extended(val.low % 256, 128),
        IntType::I16 => sign_extended(val.low % 65536, 32768),
        IntType::I32 => sign_extended(val.low % 4294967296, 2147483648),
        IntType::I64 => sign_extended(val.low, 9223372036854775808),
        IntType::U128 | IntType::USize | IntType::I128 | IntType::ISize => val,
    }
}

// Rust's `{:#x}` of the value.
fn put_prefixed_hex(w: &mut Sink<'_>, val: Wide)
    ensures { Writes (codes "0x" ++ hexadecimal (whole val)) w.old w.new }
{
    w.put_bytes(b"0x");
    w.put_hex(val);
}

pub fn rust_int_literal(w: &mut Sink<'_>, ty: IntType, val: Wide)
    ensures { Writes (rust_int_literal ty (whole val)) w.old w.new }
{
    put_cast(w, ty, val);
    w.put_byte(b'_');
    ty.put_name(w);
}

// The literal without its suffix.
#[tactic(auto, using(crate::proofs::CastLaws::number_signed))]
fn put_cast(w: &mut Sink<'_>, ty: IntType, val: Wide)
    ensures { Writes (number_text ty (whole val)) w.old w.new }
{
    let val = cast(ty, val);
    if ty.is_signed() {
        w.put_signed(val);
    } else {
        put_prefixed_hex(w, val);
    }
}

// A value of a type that is no integer type is written as `{:#x}` writes it.
#[tactic(auto, unfolding(crate::specs::Literal::literal))]
pub fn emit_int(w: &mut Sink<'_>, ty: BuiltinType, val: Wide)
    ensures { Writes (literal (builtin_int ty) (whole val)) w.old w.new }
{
    match ty {
        BuiltinType::Bool => put_prefixed_hex(w, val),
        BuiltinType::Int(ty) => rust_int_literal(w, ty, val),
    }
}

// The type of a fixed width by which a value's range is judged: 64 bits for `usize` and `isize`.
fn fixed_width(ty: IntType) -> IntType
    ensures { (is_signed result ≡ is_signed ty) × (written_bits result ≡ bits ty) }
{
    match ty {
        IntType::USize => IntType::U64,
        IntType::ISize => IntType::I64,
        _ => ty,
    }
}

// A value lies in its type's range where the cast does not change it.
#[tactic(auto, using(crate::proofs::CastLaws::in_range_cast))]
fn in_range(ty: IntType, val: Wide) -> bool
    ensures { result ≡ in_range ty (whole val) }
{
    cast(fixed_width(ty), val) == val
}

// Whether the value lies outside its type's range.
#[tactic(auto, unfolding(crate::specs::Literal::odd))]
pub fn is_odd(ty: BuiltinType, val: Wide) -> bool
    ensures { result ≡ odd (builtin_int ty) (whole val) }
{
    match ty {
        BuiltinType::Bool => false,
        BuiltinType::Int(ty) => !in_range(ty, val),
    }
}
