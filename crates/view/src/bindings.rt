// The bindings of a generated term, by their numbers.
ghost use Rattle.std.specs.Prelude.{◌≡◌, [], get_or};
ghost use Rattle.plan.specs.Lookup.{binding_at};
ghost use Rattle.view.specs.Buffers.{words_of, rows_of, bindings_in};
ghost use Rattle.view.specs.Told.{binding_told};

use super::binding::Binding;
use super::buffers::Plan;
use super::heads::BINDING_HEAD;

// Those of this table.
#[derive(Clone, Copy)]
pub struct Bindings<'a> {
    pub plan: &'a Plan<'a, 'a, 'a>,
    pub table: usize,
}

impl<'a> Bindings<'a> {
    // The number of the row of binding b; where there is none, a number that no row has.
    pub fn row(&self, b: usize) -> usize
        ensures { words_of self.now.plan.now result ≡ get_or (rows_of self.now.plan.now self.now.table) b [] }
    {
        self.plan.row_at(self.table, b)
    }

    // Binding b.
    #[tactic(auto, using(crate::proofs::Plans::binding_is))]
    pub fn binding(&self, b: usize) -> Binding
        ensures { binding_told result ≡ (binding_at (bindings_in self.now.plan.now self.now.table) b).binding }
    {
        self.plan.binding_at(self.row(b))
    }

    // The sources of binding b.
    #[tactic(auto, using(crate::proofs::Plans::sources_are))]
    pub fn sources(&self, b: usize) -> &'a [u32]
        ensures { result.now ≡ (binding_at (bindings_in self.now.plan.now self.now.table) b).sources }
    {
        self.plan.list(self.row(b), BINDING_HEAD)
    }
}
