// The faults of a step after its list, and what it does to the names: codegen.rs 741 to 841.
ghost use Rattle.std.specs.Prelude.{◌≡◌, false, not, List, ℕ, ◌+◌, ◌<◌, get_or};
ghost use Rattle.plan.specs.Lookup.{binding_at};
ghost use Rattle.plan.specs.Row.{Row, Match, Loop};
ghost use Rattle.codegen.specs.Writer.{contains};
ghost use Rattle.rows.specs.View.{nth};
ghost use Rattle.view.specs.Buffers.{words_of};
ghost use Rattle.view.specs.Told.{control_flow_of};
ghost use Rattle.row_frames.specs.Rows.{rows_in};
ghost use Rattle.emits.specs.Marks.{set_of};
ghost use Rattle.schedule_rules.specs.Faults.{calls};
ghost use Rattle.faults.specs.Kept.{bindings_of};
ghost use Rattle.faults.specs.Ready.{Decides};
ghost use Rattle.faults.specs.Names.{NamesBecome};
ghost use Rattle.faults.specs.Step.{JudgesStep};

use super::matches::name_arm;
use super::names::Names;
use crate::written::{Question, expr_holds};
use emits::stablemapset::contains;
use row_frames::{Purpose, arms_of, opened_by};
use view::block::ControlFlow;
use view::word_in;

// The faults of a row, by their letters: by default none.
#[derive(Clone, Copy, Default)]
pub struct Letters {
    pub a: bool,
    pub b: bool,
    pub c: bool,
}

// The faults of a row, and the frame that it opens.
#[derive(Clone, Copy)]
pub struct Step {
    pub faults: Letters,
    pub opens: Option<Purpose>,
}

// (a): whether the iterator source of this result has no name.
fn loop_unbound(names: &Names<'_>, res: usize) -> bool
    ensures { result ≡ not (contains (set_of names.now.bound) (get_or (binding_at (bindings_of names.now.bindings) res).sources 0 0)) }
{
    let q = word_in(names.bindings.sources(res), 0);
    !contains(&names.bound, q as usize)
}

// (b) of a result, or of one side of an `equal`.
fn expr_calls(names: &mut Names<'_>, b: usize) -> bool
    ensures names { NamesBecome names.old (set_of names.old.bound) names.new }
    ensures found { Decides names.old.bindings (λ env bs. calls env bs (set_of names.old.bound) b) result }
{
    let question = Question {
        bound: &names.bound,
        before: None,
    };
    expr_holds(&mut names.kept, &question, &names.bindings, b)
}

// A match of a level with this source, where the rows from row `first` up to row `last` stand after it: two plain numbers, since a `Range`
// is not Copy and would be made at each call.
fn judge_match(names: &mut Names<'_>, level: usize, first: usize, last: usize, q: usize) -> Step
    ensures { JudgesStep names.old names.new (Match q) level (rows_in names.old.bindings.plan.now last first) result }
{
    let arms = arms_of(names.bindings.plan, level, first, last);
    let own = name_arm(names, q, first, arms);
    let calls = expr_calls(names, q);
    Step {
        faults: Letters {
            b: calls,
            c: own,
            ..Letters::default()
        },
        opens: opened_by(arms, q),
    }
}

// A loop with this result.
fn judge_loop(names: &mut Names<'_>, res: usize) -> Step
    ensures { (l : ℕ) (rs : List Row) → JudgesStep names.old names.new (Loop res) l rs result }
{
    let unbound = loop_unbound(names, res);
    names.bind(res);
    Step {
        faults: Letters {
            a: unbound,
            ..Letters::default()
        },
        opens: Some(Purpose::Body),
    }
}

// A row of which only (b) can be a fault: `found` says whether it is.
pub(super) fn step_calls(found: bool, opens: Option<Purpose>) -> Step
    ensures { (result.faults.a ≡ false) × (result.faults.b ≡ found) × (result.faults.c ≡ false) × (result.opens ≡ opens) }
{
    Step {
        faults: Letters {
            b: found,
            ..Letters::default()
        },
        opens,
    }
}

// Row r, a step, after its list.
pub fn judge_check(names: &mut Names<'_>, r: usize, last: usize) -> Step
    requires { r < last }
    ensures { let ws = words_of names.old.bindings.plan.now r in JudgesStep names.old names.new (control_flow_of ws) (nth ws 0) (rows_in names.old.bindings.plan.now last (r + 1)) result }
{
    let plan = names.bindings.plan;
    match plan.control_flow_at(r) {
        ControlFlow::Match { source } => judge_match(names, plan.word(r, 0), r + 1, last, source),
        ControlFlow::Equal { a, b } => {
            let first = expr_calls(names, a);
            let second = expr_calls(names, b);
            step_calls(first | second, Some(Purpose::Body))
        }
        ControlFlow::Loop { result } => judge_loop(names, result),
        ControlFlow::Return { result, pos: _ } => {
            let found = expr_calls(names, result);
            step_calls(found, None)
        }
    }
}
