// Tests of each number of a row's list.
ghost use Rattle.std.specs.Prelude.{◌≡◌, ◌&&◌, ◌<◌, ltb};
ghost use Rattle.plan.specs.Refusal.{every, bound_below};
ghost use Rattle.rows.specs.View.{fields_in, pattern_of, patterns_in};

use view::block::pattern_of;

// Whether each number is below n.
pub fn list_below(list: &[u32], n: usize) -> bool
    ensures { result ≡ every (λ q. ltb q n) list.now }
{
    list.iter().all(|q| (*q as usize) < n)
}

// Whether a word stands for no binding, or for one below n.
fn is_bound_below(q: u32, n: usize) -> bool
    ensures { result ≡ bound_below n (pattern_of q) }
{
    pattern_of(q).is_none_or(|b| b < n)
}

// Whether each binding of an arm's list is below n.
pub fn patterns_below(list: &[u32], n: usize) -> bool
    ensures { result ≡ every (bound_below n) (patterns_in list.now) }
{
    list.iter().all(|q| is_bound_below(*q, n))
}

// Whether each named field's name is below `syms` and its type below `types`.
pub fn fields_below(list: &[u32], syms: usize, types: usize) -> bool
    ensures { result ≡ every (λ f. ltb f.name syms && ltb f.ty types) (fields_in list.now) }
{
    list.as_chunks::<2>().0.iter().all(|[name, ty]| (*name as usize) < syms
        && (*ty as usize) < types)
}
