// The steps over a whole state by value. The walk over a block's rows calls `enter_scope` of `body_context` and the steps of `Nesting`, which
// stand here over the whole state; what is a reference or has a name is noted in the marks alone, by `insert`, there and here.
ghost use Rattle.std.specs.Prelude.{◌≡◌, ◌+◌, ◌^◌, ◌<◌};
ghost use Rattle.emits.specs.Marks.{set_of};
ghost use Rattle.context.specs.Context.{SetRef, deeper, shallower, counted};
ghost use Rattle.context.specs.Steps.{Bind, altered};

use super::body_context::BodyContext;
use emits::stablemapset::insert;

pub fn enter_scope(state: BodyContext) -> [bool; 1024]
    ensures { set_of result ≡ set_of state.is_bound }
{
    super::body_context::enter_scope(state.is_bound)
}

pub fn begin_block(state: BodyContext) -> BodyContext
    requires { state.nesting.depth + 1 < 2 ^ 64 }
    ensures { result ≡ altered state state.is_bound (deeper state.nesting) }
{
    let nesting = state.nesting.begin_block();
    BodyContext { nesting, ..state }
}

// The bindings of the scope alone have names; those that are references stay so.
pub fn end_block(state: BodyContext, scope: [bool; 1024]) -> BodyContext
    requires { 0 < state.nesting.depth }
    ensures { result ≡ altered state scope (shallower state.nesting) }
{
    let nesting = state.nesting.end_block();
    BodyContext {
        is_bound: scope,
        nesting,
        ..state
    }
}

pub fn set_ref(state: BodyContext, binding: usize, is_ref: bool) -> BodyContext
    ensures { SetRef state binding is_ref result }
{
    let mut marked = state;
    if is_ref {
        insert(&mut marked.is_ref, binding);
    }
    marked
}

// `is_bound.insert`.
pub fn bind(state: BodyContext, binding: usize) -> BodyContext
    ensures { Bind state binding result }
{
    let mut named = state;
    insert(&mut named.is_bound, binding);
    named
}

pub fn count_split(state: BodyContext) -> BodyContext
    requires { state.nesting.match_split + 1 < 2 ^ 64 }
    ensures { result ≡ altered state state.is_bound (counted state.nesting) }
{
    let nesting = state.nesting.count_split();
    BodyContext { nesting, ..state }
}
