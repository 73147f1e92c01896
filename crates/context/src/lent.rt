// The steps of one block in a row, over a lent state and by value: document 01 names both, and `both_ways` shows that they give one state.
ghost use Rattle.std.specs.Prelude.{◌≡◌, ◌+◌, ◌^◌, ◌<◌};
ghost use Rattle.context.specs.Block.{BlockSteps};

use crate::body_context::BodyContext;
use crate::by_value;

// The steps around an arm: its scope is entered (codegen.rs 867) and its block begun (871), a binding is marked (562) and has a name (737),
// a closure is numbered (885), and the block ends (904). It asks that neither sum wraps, as the two steps do that add: an invariant of
// `Nesting` in place of that would be asked of a state that only ends a block, too.
pub fn block_steps(context: BodyContext, binding: usize, is_ref: bool) -> BodyContext
    requires { (context.nesting.depth + 1 < 2 ^ 64) × (context.nesting.match_split + 1 < 2 ^ 64) }
    ensures { BlockSteps context binding is_ref result }
{
    let mut state = context;
    let scope = state.enter_scope();
    state.begin_block();
    state.set_ref(binding, is_ref);
    state.bind(binding);
    state.count_split();
    state.end_block(scope);
    state
}

// The same by value.
pub fn block_steps_by_value(context: BodyContext, binding: usize, is_ref: bool) -> BodyContext
    requires { (context.nesting.depth + 1 < 2 ^ 64) × (context.nesting.match_split + 1 < 2 ^ 64) }
    ensures { BlockSteps context binding is_ref result }
{
    let scope = by_value::enter_scope(context);
    let begun = by_value::begin_block(context);
    let marked = by_value::set_ref(begun, binding, is_ref);
    let bound = by_value::bind(marked, binding);
    let counted = by_value::count_split(bound);
    by_value::end_block(counted, scope)
}

#[derive(Clone, Copy)]
pub struct BothWays {
    pub lent: BodyContext,
    pub by_value: BodyContext,
}

// Both give one state.
pub fn both_ways(context: BodyContext, binding: usize, is_ref: bool) -> BothWays
    requires { (context.nesting.depth + 1 < 2 ^ 64) × (context.nesting.match_split + 1 < 2 ^ 64) }
    ensures { result.lent ≡ result.by_value }
{
    BothWays {
        lent: block_steps(context, binding, is_ref),
        by_value: block_steps_by_value(context, binding, is_ref),
    }
}
