// The frames that are open in a walk over the rows of a block. There is no heap: they stand in places that the caller lends. The places
// are lent whole before one of them is: the borrow checker has no rule for both in one step.
ghost use Rattle.std.specs.Prelude.{◌≡◌, ◌≤◌, ◌<◌, ◌+◌, length, drop, []};
ghost use Rattle.row_frames.specs.Stack.{Root, Stacked, Last, Pushed, open_frames, last_level};

use super::Purpose;

// A frame: one more than the level of its row (0: the root, which stands around each level), what it is for, which bindings have names
// where it closes, and what else a walk keeps of it.
#[derive(Clone, Copy)]
pub struct Frame<T> {
    pub level: usize,
    pub purpose: Purpose,
    pub bound: [bool; 1024],
    pub own: T,
}

impl<T> Frame<T> {
    // What stands around every row. No binding has a name where it closes, since nothing comes after it.
    pub fn root(own: T) -> Frame<T>
        ensures { Root result }
    {
        Frame {
            level: 0,
            purpose: Purpose::Body,
            bound: [false; 1024],
            own,
        }
    }
}

// The places up to `top` hold the root and the open frames.
#[derive(Drop)]
pub struct Stack<'a, T> {
    pub frames: &'a mut [Frame<T>],
    pub top: usize,
    ghost stacked: { Stacked frames.now top },
}

impl<'a, T: Copy> Stack<'a, T> {
    // The root alone.
    #[tactic(auto, using(crate::specs::StackLaws::none_open))]
    pub fn new(frames: &'a mut [Frame<T>], own: T) -> Stack<'a, T>
        requires { 0 < length frames.now }
        ensures none { open_frames result.frames.now result.top ≡ [] }
        ensures places { length result.frames.now ≡ length frames.entry.now }
    {
        frames[0] = Frame::root(own);
        Stack { frames, top: 0 }
    }
}

impl<T: Copy> Stack<'_, T> {
    // The last frame, or the root.
    #[tactic(auto, using(crate::specs::StackLaws::last_there))]
    pub fn last(&self) -> &Frame<T>
        ensures { Last (open_frames self.now.frames.now self.now.top) result.now }
    {
        let frames = &*self.frames;
        &frames[self.top]
    }

    // A frame opens in the last one. The bindings that have names where it closes are in its place already.
    #[tactic(auto, using(crate::specs::StackLaws::stacked_push, crate::specs::StackLaws::pushed))]
    pub fn push(&mut self, level: usize, purpose: Purpose, own: T)
        requires { (self.old.top + 1 < length self.old.frames.now) × (last_level (open_frames self.old.frames.now self.old.top) < level) }
        ensures { Pushed level purpose own self.old.frames.now self.old.top self.new.frames.now self.new.top }
    {
        let top = self.top + 1;
        let frames = &mut *self.frames;
        let frame = &mut frames[top];
        frame.level = level;
        frame.purpose = purpose;
        frame.own = own;
        self.top = top;
    }

    // The last frame closes.
    #[tactic(auto, using(crate::specs::StackLaws::not_root, crate::specs::StackLaws::popped))]
    pub fn pop(&mut self)
        requires { 0 < last_level (open_frames self.old.frames.now self.old.top) }
        ensures frames { open_frames self.new.frames.now self.new.top ≡ drop 1 (open_frames self.old.frames.now self.old.top) }
        ensures places { self.new.frames.now ≡ self.old.frames.now }
    {
        self.top -= 1;
    }
}
