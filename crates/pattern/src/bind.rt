// The list of an arm's pattern, where a word stands for `_`.
ghost use Rattle.std.specs.Prelude.{◌≡◌};
ghost use Rattle.rows.specs.View.{patterns_in};
ghost use Rattle.codegen.specs.Pattern.{skipped_some};

use view::block::pattern_of;

// Whether the list has a `_`.
pub fn skipped_some(list: &[u32]) -> bool
    ensures { result ≡ skipped_some (patterns_in list.now) }
{
    list.iter().any(|word| pattern_of(*word).is_none())
}
