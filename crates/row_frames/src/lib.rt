// Which frames the rows of a block open, and what for: a row opens one, which is for a purpose, or none. The arms of a match, and the names
// that a pattern gives.
#![tactic(auto)]

pub mod stack;

ghost use Rattle.std.specs.Prelude.{◌≡◌, false};
ghost use Rattle.codegen.specs.Block.{is_constant};
ghost use Rattle.codegen.specs.Pattern.{bind_all};
ghost use Rattle.rows.specs.View.{patterns_in};
ghost use Rattle.view.specs.Told.{constraint_told};
ghost use Rattle.emits.specs.Marks.{set_of};
ghost use Rattle.row_frames.specs.Arms.{arms_in, opened_by};
ghost use Rattle.row_frames.specs.Rows.{rows_in};
ghost use Rattle.row_frames.specs.Told.{opens_told};

use emits::stablemapset::insert;
use view::block::{Constraint, pattern_of};
use view::buffers::Plan;
use weights::arm_count;

// What a frame is for: a match of one arm, another match with its source, an arm of such a match, or an `equal` or `loop`.
#[derive(Clone, Copy)]
pub enum Purpose {
    OneArm,
    ArmsOf(usize),
    ArmBody,
    Body,
}

// The arms of a match, as far as it is written by them: codegen.rs 741 to 777. No Option: these lines tell three, and of the other two in
// an Option it would take two matches to tell.
#[derive(Clone, Copy)]
pub enum Arms {
    Absent,
    One,
    Several,
}

// The arms of a match of a level, among the rows from row `first` up to row `last`, which stand after it: two plain numbers, since a `Range`
// is not Copy and would be made at each call.
#[tactic(auto, using(crate::proofs::Laws::arms_absent, crate::proofs::Laws::arms_step, crate::proofs::Laws::arms_one, crate::proofs::Laws::arms_several))]
pub fn arms_of(plan: &Plan<'_, '_, '_>, level: usize, first: usize, last: usize) -> Arms
    ensures { result ≡ arms_in level (rows_in plan.now last first) }
{
    if last <= first || plan.is_step(first) {
        return Arms::Absent;
    }
    if arm_count(plan, level, first, last) == 1 {
        return Arms::One;
    }
    Arms::Several
}

// The frame that a match with this source opens.
pub fn opened_by(arms: Arms, q: usize) -> Option<Purpose>
    ensures { opens_told result ≡ opened_by arms q }
{
    match arms {
        Arms::Absent => None,
        Arms::One => Some(Purpose::OneArm),
        Arms::Several => Some(Purpose::ArmsOf(q)),
    }
}

// Whether an arm asks for a constant: a match with one arm is then no pattern, codegen.rs 742.
pub fn is_constant(k: Constraint) -> bool
    ensures { result ≡ is_constant (constraint_told k) }
{
    matches!(
        k,
        Constraint::ConstBool { .. } | Constraint::ConstInt { .. } | Constraint::ConstPrim { .. }
    )
}

// The bindings of a pattern, of which this is the list, have names from here on: whether one of them had none before.
pub fn bind_all(bound: &mut [bool], list: &[u32]) -> bool
    ensures names { set_of bound.new ≡ bind_all (patterns_in list.now) (set_of bound.old) }
    ensures same { result ≡ false → set_of bound.new ≡ set_of bound.old }
{
    let mut is_new = false;
    for word in list {
        if let Some(binding) = pattern_of(*word) {
            is_new |= insert(bound, binding);
        }
    }
    is_new
}
