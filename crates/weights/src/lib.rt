// The structure of a block's rows: how many arms a match has, which rows stand below a row, and how much they weigh.
#![tactic(auto)]

ghost use Rattle.std.specs.Prelude.{◌≡◌, ℕ, Bool, ◌+◌, ◌-◌, ◌<◌, length, count_by};
ghost use Rattle.plan.specs.Row.{Row, level};
ghost use Rattle.codegen.specs.Block.{arm_count, block_weight};
ghost use Rattle.splitting.specs.Demand3.{rows_below};
ghost use Rattle.rows.specs.View.{nth, block_of};
ghost use Rattle.view.specs.Buffers.{words_of};
ghost use Rattle.weights.specs.Between.{rows_between};

use view::buffers::Plan;

// How many rows are counted of those below a row of a level, among the rows from row `from` up to row `end`: three plain numbers, since a
// value of them would be made at each call. What is counted is asked of a row's number and its level, which is read once. A `for`: of a chain of `take_while`, `filter` and `count` over a closure
// that is a parameter, no answer was found.
fn count_below<F: Fn(usize, usize) -> bool>(
    plan: &Plan<'_, '_, '_>,
    level: usize,
    from: usize,
    end: usize,
    is_counted: F,
) -> usize
    requires { F.IsAlwaysCallable is_counted }
    ensures { (P : Row → Bool) → ((r : ℕ) (b : Bool) → F.post is_counted r (nth (words_of plan.now r) 0) b → b ≡ P (block_of (words_of plan.now r))) → result ≡ count_by P (rows_below level (rows_between plan.now from end)) }
{
    let mut n = 0;
    for r in from..end {
        let row = plan.word(r, 0);
        if row <= level {
            return n;
        }
        if is_counted(r, row) {
            n += 1;
        }
    }
    n
}

// How many arms a match of a level has, of the rows from row `from` up to row `end`: the rows below it that are one level deeper.
pub fn arm_count(plan: &Plan<'_, '_, '_>, level: usize, from: usize, end: usize) -> usize
    ensures { result ≡ arm_count level (rows_between plan.now from end) }
{
    count_below(
        plan,
        level,
        from,
        end,
        |_, row| row.saturating_sub(level) == 1,
    )
}

// How much the rows below a row of a level weigh, of the rows from row `from` up to row `end`: the steps among them.
pub fn block_weight(plan: &Plan<'_, '_, '_>, level: usize, from: usize, end: usize) -> usize
    ensures { result ≡ block_weight level (rows_between plan.now from end) }
{
    count_below(plan, level, from, end, |r, _| plan.is_step(r))
}

// How many rows stand below row r, of the rows up to row `end`: those after it, up to the next row of its level or a lower one.
pub fn rows_below(plan: &Plan<'_, '_, '_>, r: usize, end: usize) -> usize
    ensures { result ≡ length (rows_below (level (block_of (words_of plan.now r))) (rows_between plan.now (r + 1) end)) }
{
    if end <= r {
        return 0;
    }
    count_below(plan, plan.word(r, 0), r + 1, end, |_, _| true)
}
