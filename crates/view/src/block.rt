// The rows of a block: `ControlFlow` of serialize.rs 78, `Constraint` of trie_again.rs 171.
ghost use Rattle.std.specs.Prelude.{◌≡◌};
ghost use Rattle.rows.specs.View.{pattern_of};
ghost use Rattle.view.specs.Kinds.{step_by, arm_by};
ghost use Rattle.view.specs.Told.{constraint_told, constraint_of, control_flow_told, control_flow_of, pattern_told};

use super::binding::wide_in;
use super::word_in;
use cells::lists::UNBOUND;
use rows::kinds::BlockKind;
use text::number::Wide;

#[derive(Clone, Copy)]
pub enum ControlFlow {
    Match { source: usize },
    Equal { a: usize, b: usize },
    Loop { result: usize },
    Return { result: usize, pos: usize },
}

#[derive(Clone, Copy)]
pub enum Constraint {
    ConstBool { val: bool },
    ConstInt { ty: usize, val: Wide },
    ConstPrim { val: usize },
    Variant { ty: usize, variant: usize },
    Struct { ty: usize },
    Some,
}

impl ControlFlow {
    // The step of a kind, of a row's words, an arm as a `match`: a function of its own, whose arms prove without a lemma.
    fn of_kind(kind: BlockKind, row: &[u32]) -> ControlFlow
        ensures { control_flow_told result ≡ step_by kind row.now }
    {
        let n = word_in(row, 2) as usize;
        match kind {
            BlockKind::Equal => ControlFlow::Equal {
                a: n,
                b: word_in(row, 3) as usize,
            },
            BlockKind::Loop => ControlFlow::Loop { result: n },
            BlockKind::Return => ControlFlow::Return {
                result: n,
                pos: word_in(row, 3) as usize,
            },
            _ => ControlFlow::Match { source: n },
        }
    }
}

// What a step's words say.
impl From<&[u32]> for ControlFlow {
    ghost from_gives = { λ row step. control_flow_told step ≡ control_flow_of row.now };

    #[tactic(auto, using(crate::proofs::Made::step_by_kind))]
    fn from(row: &[u32]) -> ControlFlow {
        ControlFlow::of_kind(BlockKind::from(word_in(row, 1)), row)
    }
}

impl Constraint {
    // The arm of a kind, of a row's words, a step as a `bool`: a function of its own, whose arms prove without a lemma.
    fn of_kind(kind: BlockKind, row: &[u32]) -> Constraint
        ensures { constraint_told result ≡ arm_by kind row.now }
    {
        let n = word_in(row, 2) as usize;
        match kind {
            BlockKind::ConstInt => Constraint::ConstInt {
                ty: n,
                val: wide_in(row, 3),
            },
            BlockKind::ConstPrim => Constraint::ConstPrim { val: n },
            BlockKind::Variant => Constraint::Variant {
                ty: n,
                variant: word_in(row, 3) as usize,
            },
            BlockKind::Struct => Constraint::Struct { ty: n },
            BlockKind::Some => Constraint::Some,
            _ => Constraint::ConstBool { val: n == 1 },
        }
    }
}

// What an arm's words ask. It looks like the conversion to `TypeData`, and each is one line over that of another type.
impl From<&[u32]> for Constraint {
    ghost from_gives = { λ row arm. constraint_told arm ≡ constraint_of row.now };

    #[tactic(auto, using(crate::proofs::Made::arm_by_kind))]
    fn from(row: &[u32]) -> Constraint {
        Constraint::of_kind(BlockKind::from(word_in(row, 1)), row)
    }
}

// The binding that a word of a pattern's list stands for, or none for `_`.
#[tactic(auto, using(crate::specs::BlockRows::pattern_none, crate::specs::BlockRows::pattern_some))]
pub fn pattern_of(word: u32) -> Option<usize>
    ensures { pattern_told result ≡ pattern_of word }
{
    (word != UNBOUND).then_some(word as usize)
}
