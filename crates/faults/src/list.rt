// (b) in a step's list: codegen.rs 735 writes its members one after the other, each as itself, and each has a name from then on.
ghost use Rattle.std.specs.Prelude.{◌≡◌, drop};
ghost use Rattle.codegen.specs.Writer.{insert};
ghost use Rattle.origin.specs.Names.{listed};
ghost use Rattle.view.specs.Buffers.{words_of};
ghost use Rattle.emits.specs.Marks.{set_of};
ghost use Rattle.schedule_rules.specs.Faults.{list_calls};
ghost use Rattle.faults.specs.Kept.{SameAnswers};
ghost use Rattle.faults.specs.Ready.{Ready, Decides, member_calls};

use super::names::bind;
use crate::kept::Kept;
use crate::written::{Question, source_holds};
use emits::stablemapset::contains;
use view::bindings::Bindings;
use view::heads::BLOCK_HEAD;

// Member b: whether a call that returns many is written inside it.
fn bind_member(kept: &mut Kept<'_>, bound: &mut [bool], bindings: &Bindings<'_>, b: usize) -> bool
    requires { Ready bindings.now (set_of bound.old) kept.old }
    ensures names { set_of bound.new ≡ insert (set_of bound.old) b }
    ensures ready { Ready bindings.now (set_of bound.new) kept.new }
    ensures same { SameAnswers kept.old kept.new }
    ensures found { Decides bindings.now (λ env bs. member_calls env bs (set_of bound.old) b) result }
{
    if contains(bound, b) {
        return false;
    }
    let question = Question {
        bound,
        before: None,
    };
    let found = source_holds(kept, &question, bindings, b);
    bind(kept, bound, b);
    found
}

// The list of row r.
pub fn list_calls(
    kept: &mut Kept<'_>,
    bound: &mut [bool],
    bindings: &Bindings<'_>,
    r: usize,
) -> bool
    requires { Ready bindings.now (set_of bound.old) kept.old }
    ensures names { set_of bound.new ≡ listed (drop 7 (words_of bindings.now.plan.now r)) (set_of bound.old) }
    ensures ready { Ready bindings.now (set_of bound.new) kept.new }
    ensures same { SameAnswers kept.old kept.new }
    ensures found { Decides bindings.now (λ env bs. list_calls env bs (set_of bound.old) (drop 7 (words_of bindings.now.plan.now r))) result }
{
    let mut found = false;
    for word in bindings.plan.list(r, BLOCK_HEAD) {
        found |= bind_member(kept, bound, bindings, *word as usize);
    }
    found
}
