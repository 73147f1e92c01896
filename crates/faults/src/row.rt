// The faults of a row, what it does to the names, and the names that are there again where the frame that it opens closes.
ghost use Rattle.std.specs.Prelude.{◌≡◌, false, ◌+◌, ◌<◌, drop};
ghost use Rattle.codegen.specs.Pattern.{bind_all};
ghost use Rattle.rows.specs.View.{nth, patterns_in, block_of};
ghost use Rattle.view.specs.Buffers.{words_of};
ghost use Rattle.row_frames.specs.Rows.{rows_in};
ghost use Rattle.row_frames.specs.Told.{purpose_told};
ghost use Rattle.emits.specs.Marks.{set_of};
ghost use Rattle.faults.specs.Names.{NamesBecome};
ghost use Rattle.faults.specs.Row.{JudgesArm, JudgesRow};

use super::check::{Step, judge_check, step_calls};
use super::list::list_calls;
use super::names::Names;
use row_frames::{Purpose, bind_all};
use view::heads::BLOCK_HEAD;

// The names are saved, unless row r is a `return`, which opens no frame. Not one function with `save_scope` of `blocks`: that goes through
// codegen.rs's step `enter_scope`, which document 01 names, and a judgement has no part in it.
fn save_names(saved: &mut [bool; 1024], names: &Names<'_>, r: usize)
    ensures { (nth (words_of names.now.bindings.plan.now r) 1 ≡ 3 → ⊥) → saved.new ≡ names.now.bound }
{
    if !names.bindings.plan.is_return(r) {
        *saved = names.bound;
    }
}

// The bindings of the pattern of row r get names.
fn name_patterns(names: &mut Names<'_>, r: usize)
    ensures { NamesBecome names.old (bind_all (patterns_in (drop 7 (words_of names.old.bindings.plan.now r))) (set_of names.old.bound)) names.new }
{
    if bind_all(&mut names.bound, names.bindings.plan.list(r, BLOCK_HEAD)) {
        names.kept.raise();
    }
}

// A row without a fault.
fn faultless(opens: Option<Purpose>) -> Step
    ensures { (result.faults.a ≡ false) × (result.faults.b ≡ false) × (result.faults.c ≡ false) × (result.opens ≡ opens) }
{
    step_calls(false, opens)
}

// Row r, an arm inside a frame of a purpose.
#[tactic(auto, using(crate::proofs::RowLaws::arm_other), unfolding(origin::specs::Names::arm_inside, origin::specs::Names::arm_opens))]
fn judge_arm(names: &mut Names<'_>, r: usize, purpose: Purpose) -> Step
    ensures { JudgesArm names.old names.new (purpose_told purpose) (patterns_in (drop 7 (words_of names.old.bindings.plan.now r))) result }
{
    match purpose {
        Purpose::ArmsOf(_) => {
            name_patterns(names, r);
            faultless(Some(Purpose::ArmBody))
        }
        _ => faultless(None),
    }
}

// Row r, before the rows up to row `last`, inside a frame of a purpose. The names where the frame that it opens closes are saved.
pub fn judge_row(
    names: &mut Names<'_>,
    saved: &mut [bool; 1024],
    r: usize,
    last: usize,
    purpose: Purpose,
) -> Step
    requires { r < last }
    ensures { let ws = words_of names.old.bindings.plan.now r in JudgesRow names.old names.new (purpose_told purpose) (nth ws 1) (block_of ws) (rows_in names.old.bindings.plan.now last (r + 1)) saved.new result }
{
    if !names.bindings.plan.is_step(r) {
        save_names(saved, names, r);
        return judge_arm(names, r, purpose);
    }
    let calls = list_calls(&mut names.kept, &mut names.bound, &names.bindings, r);
    save_names(saved, names, r);
    let mut s = judge_check(names, r, last);
    s.faults.b |= calls;
    s
}
