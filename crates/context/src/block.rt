// The lines that begin and end blocks and closures. A depth or a nesting is that of the lines around the block or the closure.
ghost use Rattle.std.specs.Prelude.{◌<◌};
ghost use Rattle.text.specs.Writes.{Writes};
ghost use Rattle.context.specs.Closing.{line_of, overflow_action, call_bytes, closure_told, closure_text, catchall_text, brace_text, block_text, opening_text};

use super::body_context::Nesting;
use text::sink::Sink;

// A line of fixed bytes.
pub fn put_line(w: &mut Sink<'_>, depth: usize, line: &[u8])
    ensures { Writes (line_of depth line.now) w.old w.new }
{
    w.put_indent(depth);
    w.put_bytes(line);
    w.put_byte(b'\n');
}

// `iter_overflow_action` of codegen.rs 100: what is done where an iterator has too many results.
#[tactic(auto, unfolding(crate::specs::Closing::overflow_action))]
pub fn put_iter_overflow_action(w: &mut Sink<'_>, in_closure: bool)
    ensures { Writes (overflow_action in_closure) w.old w.new }
{
    if in_closure {
        w.put_bytes(b"return true;");
    } else {
        w.put_bytes(b"return;");
    }
}

// The first line of a closure, codegen.rs 887.
#[tactic(auto, using(text::specs::Writes::writes_nil), unfolding(crate::specs::Closing::opening_text))]
pub fn begin_closure(w: &mut Sink<'_>, depth: usize, split: bool)
    ensures { Writes (opening_text depth split) w.old w.new }
{
    if split {
        put_line(w, depth, b"if (|| -> bool {");
    }
}

// The last line of a closure, codegen.rs 900: the closure is called, and an overflow in it goes on outside.
fn call_closure(w: &mut Sink<'_>, nesting: Nesting, number: usize)
    ensures { Writes (line_of nesting.depth (call_bytes nesting.in_closure number)) w.old w.new }
{
    w.put_indent(nesting.depth);
    w.put_bytes(b")() { ");
    put_iter_overflow_action(w, nesting.in_closure);
    w.put_bytes(b" } // __isle_arm_");
    w.put_decimal(number as u64);
    w.put_byte(b'\n');
}

// The last three lines of a closure, codegen.rs 893, where a block has one: its number.
#[tactic(auto, using(text::specs::Writes::writes_nil), unfolding(crate::specs::Closing::closure_text))]
pub fn end_closure(w: &mut Sink<'_>, nesting: Nesting, closure: Option<usize>)
    requires { nesting.depth < 4096 }
    ensures { Writes (closure_text nesting.depth nesting.in_closure (closure_told closure)) w.old w.new }
{
    if let Some(number) = closure {
        put_line(w, nesting.depth + 1, b"false");
        put_line(w, nesting.depth, b"}");
        call_closure(w, nesting, number);
    }
}

// The last line of a match of several arms, codegen.rs 776: another line, under another condition, than the first of a closure.
#[tactic(auto, using(text::specs::Writes::writes_nil), unfolding(crate::specs::Closing::catchall_text))]
pub fn end_match(w: &mut Sink<'_>, depth: usize, several: bool)
    ensures { Writes (catchall_text depth several) w.old w.new }
{
    if several {
        put_line(w, depth, b"_ => {}");
    }
}

// `end_block_without_newline` of codegen.rs 147.
pub fn end_block_without_newline(w: &mut Sink<'_>, depth: usize)
    ensures { Writes (brace_text depth) w.old w.new }
{
    w.put_indent(depth);
    w.put_bytes(b"}");
}

// `end_block` of codegen.rs 138: the last line of the block, where it has one, its closure, and its brace.
pub fn end_block(w: &mut Sink<'_>, nesting: Nesting, closure: Option<usize>, several: bool)
    requires { nesting.depth < 4095 }
    ensures { Writes (block_text nesting.depth nesting.in_closure (closure_told closure) several) w.old w.new }
{
    let inner = Nesting {
        depth: nesting.depth + 1,
        ..nesting
    };
    end_closure(w, inner, closure);
    end_match(w, inner.depth, several);
    end_block_without_newline(w, nesting.depth);
    w.put_byte(b'\n');
}
