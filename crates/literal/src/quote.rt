// Rust's `{:?}` of a text.
ghost use Rattle.std.specs.Prelude.{◌≡◌, [], ◌∷◌};
ghost use Rattle.text.specs.Writes.{Writes};
ghost use Rattle.literal.specs.Quote.{escaped, quoted};
ghost use Rattle.literal.specs.QuoteLaws.{is_escaped};

use text::sink::Sink;

// Has a byte a backslash before it?
fn is_escaped(byte: u8) -> bool
    ensures { result ≡ is_escaped byte }
{
    matches!(byte, b'"' | b'\\')
}

// The bytes of the text, escaped. What stands between two escapes is put at once: few texts have any.
fn put_escaped(w: &mut Sink<'_>, text: &[u8])
    ensures { Writes (escaped text.now) w.old w.new }
{
    // Where what is put next begins: at the text's start, or after the last byte that has a backslash before it.
    let mut first = 0;
    for (i, byte) in text.iter().enumerate() {
        if is_escaped(*byte) {
            w.put_part(text, first, i);
            w.put_byte(b'\\');
            w.put_byte(*byte);
            first = i + 1;
        }
    }
    w.put_part(text, first, text.len());
}

pub fn put_quoted(w: &mut Sink<'_>, text: &[u8])
    ensures { Writes (quoted text.now) w.old w.new }
{
    w.put_byte(b'"');
    put_escaped(w, text);
    w.put_byte(b'"');
}
