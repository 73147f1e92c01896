// The plan's own texts, put into the sink.
ghost use Rattle.std.specs.Prelude.{◌≡◌};
ghost use Rattle.literal.specs.Quote.{quoted};
ghost use Rattle.text.specs.Writes.{Writes};
ghost use Rattle.view.specs.Buffers.{env_of};
ghost use Rattle.sema.specs.Texts.{text_in, text_table};

use literal::quote::put_quoted;
use text::sink::Sink;
use view::buffers::Plan;
use view::tables::{FILES, POSS, SYMS};

// What has texts of its own.
#[derive(Clone, Copy)]
pub enum Text {
    File,
    Sym,
    Pos,
}

// The number of its table.
impl From<Text> for usize {
    ghost from_gives = { λ of t. t ≡ text_table of };

    fn from(of: Text) -> usize {
        match of {
            Text::File => FILES,
            Text::Sym => SYMS,
            Text::Pos => POSS,
        }
    }
}

impl Text {
    // The bytes of the text n, which the plan has.
    #[tactic(auto, using(crate::proofs::Laws::text_is))]
    fn bytes<'p>(self, plan: &Plan<'p, '_, '_>, n: usize) -> &'p [u8]
        ensures { result.now ≡ text_in (env_of plan.now) self n }
    {
        plan.text_at(plan.row_at(usize::from(self), n))
    }
}

pub fn put_text(w: &mut Sink<'_>, plan: &Plan<'_, '_, '_>, of: Text, n: usize)
    ensures { Writes (text_in (env_of plan.now) of n) w.old w.new }
{
    w.put_bytes(of.bytes(plan, n));
}

pub fn put_quoted_text(w: &mut Sink<'_>, plan: &Plan<'_, '_, '_>, of: Text, n: usize)
    ensures { Writes (quoted (text_in (env_of plan.now) of n)) w.old w.new }
{
    put_quoted(w, of.bytes(plan, n));
}
