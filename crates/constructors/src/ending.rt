// The last lines of a generated term: codegen.rs 585 to 604.
ghost use Rattle.std.specs.Prelude.{◌≡◌, false};
ghost use Rattle.text.specs.Writes.{Writes};
ghost use Rattle.codegen.specs.Terms.{ends_in_return};
ghost use Rattle.view.specs.Buffers.{env_of};
ghost use Rattle.row_frames.specs.Rows.{rows_in};
ghost use Rattle.sema.specs.Signature.{return_kind_told};
ghost use Rattle.constructors.specs.Ending.{last_text, end_text};

use sema::signature::ReturnKind;
use sema::texts::{Text, put_quoted_text};
use text::sink::Sink;
use view::buffers::Plan;

// Does the root, the rows of level 0 from row `first` up to row `last`, end in a return? Two numbers: of a range
// that is lent the chain would make another.
pub fn ends_in_return(plan: &Plan<'_, '_, '_>, first: usize, last: usize) -> bool
    ensures { result ≡ ends_in_return false (rows_in plan.now last first) }
{
    (first..last)
        .filter(|r| plan.word(*r, 0) == 0)
        .fold(false, |_, r| plan.is_return(r))
}

// `last_expr` of codegen.rs 585.
#[tactic(auto, using(text::specs::Writes::writes_nil), unfolding(crate::specs::Ending::last_text, codegen::specs::ReturnKind::by_return_kind))]
fn put_last_expr(
    w: &mut Sink<'_>,
    plan: &Plan<'_, '_, '_>,
    kind: ReturnKind,
    name: usize,
    pos: usize,
)
    ensures { Writes (last_text (env_of plan.now) (return_kind_told kind) name pos) w.old w.new }
{
    match kind {
        ReturnKind::Iterator => {}
        ReturnKind::Option => w.put_bytes(b"    None\n"),
        ReturnKind::Plain => {
            w.put_bytes(
                b"    unreachable!(\"no rule matched for term {} at {}; should it be partial?\", ",
            );
            put_quoted_text(w, plan, Text::Sym, name);
            w.put_bytes(b", ");
            put_quoted_text(w, plan, Text::Pos, pos);
            w.put_bytes(b")\n");
        }
    }
}

// The last line, if the root does not end in a return, and the brace.
#[tactic(auto, using(text::specs::Writes::writes_nil, text::specs::Writes::writes_then), unfolding(crate::specs::Ending::end_text))]
pub fn put_end(
    w: &mut Sink<'_>,
    plan: &Plan<'_, '_, '_>,
    returns: bool,
    kind: ReturnKind,
    name: usize,
    pos: usize,
)
    ensures { Writes (end_text (env_of plan.now) returns (return_kind_told kind) name pos) w.old w.new }
{
    if !returns {
        put_last_expr(w, plan, kind, name, pos);
    }
    w.put_bytes(b"}\n");
}
