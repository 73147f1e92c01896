// The names of a term's bindings, and the answers that are kept for them: these are given up where a name is new, where a frame closes, and
// where (c) was asked, since its answers are to another question.
ghost use Rattle.std.specs.Prelude.{◌≡◌, length};
ghost use Rattle.codegen.specs.Writer.{insert};
ghost use Rattle.codegen.specs.Terms.{no_marks};
ghost use Rattle.emits.specs.Marks.{set_of};
ghost use Rattle.faults.specs.Kept.{SameAnswers};
ghost use Rattle.faults.specs.Ready.{Ready};

use crate::kept::Kept;
use emits::stablemapset::{empty, insert};
use view::bindings::Bindings;

// Binding b gets a name. What is kept of the answers is given up only where it had none.
pub fn bind(kept: &mut Kept<'_>, bound: &mut [bool], b: usize)
    ensures names { set_of bound.new ≡ insert (set_of bound.old) b }
    ensures ready { (bindings : Bindings) → Ready bindings (set_of bound.old) kept.old → Ready bindings (set_of bound.new) kept.new }
    ensures same { SameAnswers kept.old kept.new }
{
    if insert(bound, b) {
        kept.raise();
    }
}

// Which of these bindings have names at a row, and what is kept of the answers where these have.
#[derive(Drop)]
pub struct Names<'a> {
    pub bindings: Bindings<'a>,
    pub bound: [bool; 1024],
    pub kept: Kept<'a>,
    ghost ready: { Ready bindings (set_of bound) kept },
}

impl<'a> Names<'a> {
    // No binding has a name yet. Lent is room for the answers.
    pub fn new(bindings: Bindings<'a>, answers: &'a mut [u32]) -> Names<'a>
        ensures bindings { result.bindings ≡ bindings.entry }
        ensures names { set_of result.bound ≡ no_marks }
        ensures buffer { result.kept.answers.ghost_name ≡ answers.entry.ghost_name }
        ensures size { length result.kept.answers.now ≡ length answers.old }
    {
        Names {
            bindings,
            bound: empty(),
            kept: Kept::new(answers),
        }
    }
}

impl Names<'_> {
    // Binding b gets a name.
    pub fn bind(&mut self, b: usize)
        ensures bindings { self.new.bindings ≡ self.old.bindings }
        ensures names { set_of self.new.bound ≡ insert (set_of self.old.bound) b }
        ensures same { SameAnswers self.old.kept self.new.kept }
    {
        bind(&mut self.kept, &mut self.bound, b);
    }

    // The names are those that were kept where a frame opened.
    pub fn restore(&mut self, bound: &[bool; 1024])
        ensures bindings { self.new.bindings ≡ self.old.bindings }
        ensures names { self.new.bound ≡ bound.now }
        ensures same { SameAnswers self.old.kept self.new.kept }
    {
        self.kept.raise();
        self.bound = *bound;
    }
}
