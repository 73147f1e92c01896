// Two pieces that expressions, patterns and rows share: a binding's name, and the end of a line with the next one's indentation.
ghost use Rattle.std.specs.Prelude.{◌∷◌, ◌++◌, ◌+◌};
ghost use Rattle.text.specs.Codes.{codes};
ghost use Rattle.text.specs.Digits.{decimal};
ghost use Rattle.text.specs.Writes.{Writes};
ghost use Rattle.codegen.specs.Piece.{indent};

use text::sink::Sink;

// `v` and the binding's number.
#[tactic(auto, using(crate::proofs::consts::Laws::writes_byte))]
pub fn put_var(w: &mut Sink<'_>, binding: usize)
    ensures { Writes (codes "v" ++ decimal binding) w.old w.new }
{
    w.put_bytes(b"v");
    w.put_decimal(binding as u64);
}

// A line feed, then an indentation of `more` steps beyond `depth`. More than a number can count have no room in any buffer.
// No `w.put_indent(depth.saturating_add(more))`: tried, and its proof needs that `w.end` is below 2 ^ 64, which of a lent value's field is
// known only where it is read.
#[tactic(auto, using(crate::proofs::consts::Laws::writes_byte), unfolding(codegen::specs::Piece::indent))]
pub fn put_break(w: &mut Sink<'_>, depth: usize, more: usize)
    ensures { Writes (10 ∷ indent (depth + more)) w.old w.new }
{
    w.put_byte(b'\n');
    match depth.checked_add(more) {
        Some(depth) => w.put_indent(depth),
        None => w.at = w.end,
    }
}
