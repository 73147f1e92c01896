// A plan whose variants are indexed.
ghost use Rattle.exists.specs.Ready.{Ready};

use view::buffers::Plan;

// There are at most 256 types with the builtins, and `plan.index` has the variants of each.
#[derive(Clone, Copy)]
pub struct Indexed<'a> {
    pub plan: Plan<'a, 'a, 'a>,
    ghost ready: { Ready plan.words.now plan.rows.now plan.tables.now plan.index.now },
}
