// Refusal 9: a `match` without arms.
ghost use Rattle.std.specs.Prelude.{◌≡◌, not, ◌||◌, map, ◌+◌, ◌-◌, List, ℕ};
ghost use Rattle.plan.specs.Row.{level};
ghost use Rattle.plan.specs.Refusal.{is_match, has_below, matches_armed, matches_have_arms};
ghost use Rattle.rows.specs.View.{block_of};
ghost use Rattle.layout.specs.View.{cuts};
ghost use Rattle.view.specs.Buffers.{words_of, rows_of, plan_of};
ghost use Rattle.view.specs.Tables.{plan_in};
ghost use Rattle.checks.specs.Tests.{armed};

use super::tables::all_generated;
use rows::kinds::BlockKind;
use view::buffers::Plan;

// Whether row r is a match.
#[tactic(auto, using(crate::proofs::Blocks::a_match, crate::proofs::Blocks::no_match))]
fn is_match(plan: &Plan<'_, '_, '_>, r: usize) -> bool
    ensures { result ≡ is_match (block_of (words_of plan.now r)) }
{
    plan.block_kind(r) == BlockKind::Match
}

// Whether row r, in a block that ends before row `end`, is no match or has the next row below it.
#[tactic(auto, using(crate::proofs::Blocks::match_alone, crate::proofs::Blocks::match_below))]
fn is_armed(plan: &Plan<'_, '_, '_>, r: usize, end: usize) -> bool
    ensures { result ≡ armed plan.now end r }
{
    !is_match(plan, r) || (r < end && r + 1 < end && plan.word(r, 0) < plan.word(r + 1, 0))
}

// Whether each match of the block of table t has arms. The tests of blocks and of plans are one line each over a chain of their own or one of
// `tables`: what differs is the test alone, and a function of those lines would be another such chain.
fn block_armed(plan: &Plan<'_, '_, '_>, t: usize) -> bool
    ensures { result ≡ matches_armed (map block_of (rows_of plan.now t)) }
{
    let end = plan.end_row(t);
    plan.row_range(t).all(|r| is_armed(plan, r, end))
}

#[tactic(auto, using(crate::proofs::Bytes::arms_any), unfolding(plan::specs::Refusal::matches_have_arms))]
pub fn matches_have_arms(plan: &Plan<'_, '_, '_>) -> bool
    ensures own { result ≡ matches_have_arms (plan_of plan.now) }
    ensures any { (bytes : List ℕ) → result ≡ matches_have_arms (plan_in bytes plan.now.words.now plan.now.rows.now plan.now.tables.now) }
{
    all_generated(plan, |g| block_armed(plan, g.block))
}
