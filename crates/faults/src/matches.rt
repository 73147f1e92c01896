// (c): codegen.rs 742 to 770 writes the pattern of a match of one arm before its source.
ghost use Rattle.std.specs.Prelude.{true, drop};
ghost use Rattle.codegen.specs.Pattern.{bind_all};
ghost use Rattle.rows.specs.View.{patterns_in};
ghost use Rattle.view.specs.Buffers.{words_of};
ghost use Rattle.emits.specs.Marks.{set_of};
ghost use Rattle.faults.specs.Kept.{Latest, Fresh, SameAnswers, answer};
ghost use Rattle.faults.specs.Ready.{Decides};
ghost use Rattle.faults.specs.Names.{NamesBecome};
ghost use Rattle.faults.specs.Arms.{arm_names, arm_own, own_used};

use super::names::Names;
use crate::kept::Kept;
use crate::written::{Question, expr_holds};
use row_frames::{Arms, bind_all, is_constant};
use view::bindings::Bindings;
use view::heads::BLOCK_HEAD;

// Whether the written expression of binding q holds a name that is not among those before.
#[tactic(auto, using(crate::proofs::ExprLaws::fresh_known, crate::proofs::ExprLaws::fresh_latest))]
fn uses_own<'a>(
    kept: &mut Kept<'_>,
    before: &'a [bool],
    bound: &'a [bool],
    bindings: &Bindings<'_>,
    q: usize,
) -> bool
    requires { Fresh kept.old.number kept.old.answers.now }
    ensures latest { Latest kept.new.number kept.new.answers.now }
    ensures same { SameAnswers kept.old kept.new }
    ensures found { Decides bindings.now (λ env bs. answer true env bs (set_of before.now) (set_of bound.now) q) result }
{
    let question = Question {
        bound,
        before: Some(before),
    };
    expr_holds(kept, &question, bindings, q)
}

// A match of one arm, row r: its bindings get names, and its source is asked for those that had none before.
fn name_own(names: &mut Names<'_>, q: usize, r: usize) -> bool
    ensures names { NamesBecome names.old (bind_all (patterns_in (drop 7 (words_of names.old.bindings.plan.now r))) (set_of names.old.bound)) names.new }
    ensures found { Decides names.old.bindings (λ env bs. own_used bs (set_of names.old.bound) q (words_of names.old.bindings.plan.now r)) result }
{
    let before = names.bound;
    if !bind_all(&mut names.bound, names.bindings.plan.list(r, BLOCK_HEAD)) {
        return false;
    }
    names.kept.raise();
    if is_constant(names.bindings.plan.constraint_at(r)) {
        return false;
    }
    let found = uses_own(&mut names.kept, &before, &names.bound, &names.bindings, q);
    names.kept.raise();
    found
}

// The names and (c) of a match with this source and these arms, whose first is row r.
pub fn name_arm(names: &mut Names<'_>, q: usize, r: usize, arms: Arms) -> bool
    ensures names { NamesBecome names.old (arm_names arms (words_of names.old.bindings.plan.now r) (set_of names.old.bound)) names.new }
    ensures found { Decides names.old.bindings (λ env bs. arm_own arms bs (set_of names.old.bound) q (words_of names.old.bindings.plan.now r)) result }
{
    match arms {
        Arms::One => name_own(names, q, r),
        Arms::Absent | Arms::Several => false,
    }
}
