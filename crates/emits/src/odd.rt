// The count of odd literals. It stops at the room: a text that fits has fewer odd literals than bytes.
ghost use Rattle.std.specs.Prelude.{cond};
ghost use Rattle.emits.specs.Runs.{Counted};

use text::sink::Sink;

// One more if the literal is odd.
#[tactic(auto, using(crate::specs::Emits::counts_one, crate::specs::Emits::counts_full, crate::specs::Emits::counts_none))]
pub fn count_odd(w: &mut Sink<'_>, is_odd: bool)
    ensures { Counted (cond is_odd 1 0) w.old w.new }
{
    if is_odd && w.odd < w.end {
        w.odd += 1;
    }
}
