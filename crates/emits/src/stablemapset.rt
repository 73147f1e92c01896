// `StableSet` of stablemapset.rs, for the numbers of bindings: 1,024 marks, lent as a slice.
// Marks are slices of any length: a set that has 1,024 would ask more of those who lend fewer.
// Contracts speak of the set through `set_of` (specs/Marks.antt) alone.
ghost use Rattle.std.specs.Prelude.{◌≡◌, not};
ghost use Rattle.codegen.specs.Writer.{contains, insert};
ghost use Rattle.codegen.specs.Terms.{no_marks};
ghost use Rattle.emits.specs.Marks.{set_of};

// No binding is in the set.
#[tactic(auto, unfolding(crate::specs::Marks::set_of))]
pub fn empty() -> [bool; 1024]
    ensures { set_of result ≡ no_marks }
{
    [false; 1024]
}

// Is a binding in the set? One that has no place in it is not.
#[tactic(auto, unfolding(crate::specs::Marks::set_of))]
pub fn contains(set: &[bool], binding: usize) -> bool
    ensures { result ≡ contains (set_of set.now) binding }
{
    set.get(binding).copied().unwrap_or(false)
}

// Whether it was not in the set before. A binding that has no place in the set changes nothing. By index: `get_mut` was tried,
// and the library says nothing of what the slice ends as.
#[tactic(auto, unfolding(crate::specs::Marks::set_of))]
pub fn insert(set: &mut [bool], binding: usize) -> bool
    ensures marks { set_of set.new ≡ insert (set_of set.old) binding }
    ensures is_new { result ≡ not (contains (set_of set.old) binding) }
{
    let is_new = !contains(set, binding);
    if binding < set.len() {
        set[binding] = true;
    }
    is_new
}
