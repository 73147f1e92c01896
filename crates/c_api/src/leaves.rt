// The writers of numbers, literals and quoted texts as C functions, for programs in Rust that measure them or compare them with
// Rust's own. Each has the contract of the function that it calls. A buffer, a position and one more than the room, and the halves of a number,
// are parameters of their own, a slice passes as a pointer and a length, and 1 stands for yes: C has neither a `Sink` nor a `Wide`.
ghost use Rattle.std.specs.Prelude.{◌≡◌, ◌+◌, ◌*◌, ◌^◌, cond, get_or};
ghost use Rattle.text.specs.Digits.{decimal, signed};
ghost use Rattle.text.specs.Sink.{Puts};
ghost use Rattle.literal.specs.BuiltinType.{all, builtin_int};
ghost use Rattle.literal.specs.declared.builtin_type.BuiltinType.{BuiltinType};
ghost use Rattle.literal.specs.Literal.{literal, odd};
ghost use Rattle.literal.specs.Quote.{quoted};

use literal::builtin_type::BuiltinType;
use literal::literal::{emit_int, is_odd};
use literal::quote::put_quoted;
use text::number::Wide;
use text::sink::Sink;

// A sink that stands at a position of the buffer. What is put into it is no closure: of one that is lent a sink it is not known that the sink
// still has the same buffer afterwards.
fn sink_at(out: &mut [u8], at: usize, end: usize) -> Sink<'_>
    ensures buffer { result.out.ghost_name ≡ out.entry.ghost_name }
    ensures bytes { result.out.now ≡ out.old }
    ensures place { (result.at ≡ at) × (result.end ≡ end) }
{
    Sink {
        out,
        at,
        end,
        odd: 0,
    }
}

#[unsafe(no_mangle)]
pub extern "C" fn rizhavel_put_decimal(out: &mut [u8], at: usize, end: usize, n: u64) -> usize
    ensures { Puts end (decimal n) out.old at out.new result }
{
    let mut w = sink_at(out, at, end);
    w.put_decimal(n);
    w.at
}

#[unsafe(no_mangle)]
pub extern "C" fn rizhavel_put_signed(
    out: &mut [u8],
    at: usize,
    end: usize,
    high: u64,
    low: u64,
) -> usize
    ensures { Puts end (signed 128 (high * 2 ^ 64 + low)) out.old at out.new result }
{
    let mut w = sink_at(out, at, end);
    w.put_signed(Wide { high, low });
    w.at
}

#[unsafe(no_mangle)]
pub extern "C" fn rizhavel_put_quoted(out: &mut [u8], at: usize, end: usize, text: &[u8]) -> usize
    ensures { Puts end (quoted text.now) out.old at out.new result }
{
    let mut w = sink_at(out, at, end);
    put_quoted(&mut w, text);
    w.at
}

// The literal of a value of the builtin type with the number ty.
#[unsafe(no_mangle)]
pub extern "C" fn rizhavel_emit_int(
    out: &mut [u8],
    at: usize,
    end: usize,
    ty: usize,
    high: u64,
    low: u64,
) -> usize
    ensures { Puts end (literal (builtin_int (get_or all ty BuiltinType.Bool)) (high * 2 ^ 64 + low)) out.old at out.new result }
{
    let mut w = sink_at(out, at, end);
    emit_int(&mut w, BuiltinType::from_index(ty), Wide { high, low });
    w.at
}

// 1 if the literal is odd.
#[unsafe(no_mangle)]
pub extern "C" fn rizhavel_is_odd(ty: usize, high: u64, low: u64) -> u8
    ensures { result ≡ cond (odd (builtin_int (get_or all ty BuiltinType.Bool)) (high * 2 ^ 64 + low)) 1 0 }
{
    is_odd(BuiltinType::from_index(ty), Wide { high, low }).into()
}
