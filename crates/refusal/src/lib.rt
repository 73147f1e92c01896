// The refusals of document 01, "The answer, and turning a plan away", with the numbers that it gives them.
#![tactic(auto)]

ghost use Rattle.std.specs.Prelude.{◌≡◌};
ghost use Rattle.refusal.specs.Number.{number};

#[derive(Clone, Copy, Debug, PartialEq, Eq)]
pub enum Refusal {
    // the plan is over its length
    TooLong = 1,
    // a byte that a plan may not have
    Byte,
    // a table, row, level or value is not as laid out
    Layout,
    // a table, level or list is over its most
    Most,
    // something that is named doesn't exist, or is of the wrong sort
    Exists,
    // a binding's or arm's list has another length than it should
    Lengths,
    // a source isn't lower than its binding, or two `arg` have one index
    Lower,
    // in a term not of iterator kind a loop, or a return that isn't the last step
    Returns,
    // a `match` without arms
    Armless,
    // the result of a `loop` is not an `iter`
    Loop,
    // the text is longer than the buffer
    Room,
}

impl From<Refusal> for u32 {
    ghost from_gives = { λ refusal n. n ≡ number refusal };

    fn from(refusal: Refusal) -> u32 {
        refusal as u32
    }
}
