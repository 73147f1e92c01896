// `BodyContext` of codegen.rs 82: what changes while a term is written, and its steps over a lent state. What changes
// where a block or a closure begins or ends, `Nesting`, is a value of its own, with steps by value, as the walk over a block's rows calls
// them: a state with its marks is 2 KiB, and is copied wherever it is passed. What is written there is in `block`.
ghost use Rattle.std.specs.Prelude.{◌≡◌, ◌+◌, ◌^◌, ◌<◌};
ghost use Rattle.context.specs.Context.{New, deeper, shallower, counted};
ghost use Rattle.context.specs.Steps.{Entered, begun, closed, Marked, Named, numbered};

use super::by_value;
use emits::stablemapset::empty;

// No invariant bounds the depth and the number: each step asks for what it needs, and `end_block` for no more than a depth that is not 0.
#[derive(Clone, Copy)]
pub struct Nesting {
    // how deep the next line is
    pub depth: usize,
    // how many closures have a number
    pub match_split: usize,
    pub in_closure: bool,
}

#[derive(Clone, Copy)]
pub struct BodyContext {
    pub is_ref: [bool; 1024],
    pub is_bound: [bool; 1024],
    pub nesting: Nesting,
}

impl Nesting {
    // codegen.rs 133.
    pub fn begin_block(self) -> Nesting
        requires { self.depth + 1 < 2 ^ 64 }
        ensures { result ≡ deeper self }
    {
        Nesting {
            depth: self.depth + 1,
            ..self
        }
    }

    // codegen.rs 138.
    pub fn end_block(self) -> Nesting
        requires { 0 < self.depth }
        ensures { result ≡ shallower self }
    {
        Nesting {
            depth: self.depth - 1,
            ..self
        }
    }

    // codegen.rs 885: a closure has been numbered.
    pub fn count_split(self) -> Nesting
        requires { self.match_split + 1 < 2 ^ 64 }
        ensures { result ≡ counted self }
    {
        Nesting {
            match_split: self.match_split + 1,
            ..self
        }
    }
}

// Document 01 names steps by value, and steps over a lent state that call them: each of these calls its step of `by_value`.
impl BodyContext {
    // codegen.rs 104.
    pub fn new() -> BodyContext
        ensures { New result }
    {
        BodyContext {
            is_ref: empty(),
            is_bound: empty(),
            nesting: Nesting {
                depth: 0,
                match_split: 0,
                in_closure: false,
            },
        }
    }

    // codegen.rs 128: the bindings that have names outside. The state is as it was.
    pub fn enter_scope(&mut self) -> [bool; 1024]
        ensures { Entered self.old result self.new }
    {
        by_value::enter_scope(*self)
    }

    // codegen.rs 133.
    pub fn begin_block(&mut self)
        requires { self.old.nesting.depth + 1 < 2 ^ 64 }
        ensures { self.new ≡ begun self.old }
    {
        *self = by_value::begin_block(*self);
    }

    // codegen.rs 138: the bindings of the scope alone have names; those that are references stay so.
    pub fn end_block(&mut self, scope: [bool; 1024])
        requires { 0 < self.old.nesting.depth }
        ensures { self.new ≡ closed self.old scope }
    {
        *self = by_value::end_block(*self, scope);
    }

    // codegen.rs 152.
    pub fn set_ref(&mut self, binding: usize, is_ref: bool)
        ensures { Marked self.old binding is_ref self.new }
    {
        *self = by_value::set_ref(*self, binding, is_ref);
    }

    // `is_bound.insert`.
    pub fn bind(&mut self, binding: usize)
        ensures { Named self.old binding self.new }
    {
        *self = by_value::bind(*self, binding);
    }

    // codegen.rs 885: a closure has been numbered.
    pub fn count_split(&mut self)
        requires { self.old.nesting.match_split + 1 < 2 ^ 64 }
        ensures { self.new ≡ numbered self.old }
    {
        *self = by_value::count_split(*self);
    }
}

// codegen.rs 128: the bindings that have names outside are kept, for where the scope is left.
pub fn enter_scope(bound: [bool; 1024]) -> [bool; 1024]
    ensures { result ≡ bound }
{
    bound
}
