// Refusal 8: in a term not of iterator kind, a loop, or a block whose first return isn't its last step.
ghost use Rattle.std.specs.Prelude.{◌≡◌, ◌||◌, map, ◌+◌, ◌-◌, List, ℕ};
ghost use Rattle.plan.specs.Row.{level};
ghost use Rattle.plan.specs.Lookup.{term_at};
ghost use Rattle.plan.specs.Refusal.{ends_block, returns_last, returns_fit};
ghost use Rattle.rows.specs.View.{block_of};
ghost use Rattle.layout.specs.View.{cuts};
ghost use Rattle.view.specs.Buffers.{words_of, rows_of, env_of, plan_of};
ghost use Rattle.view.specs.Tables.{plan_in};
ghost use Rattle.checks.specs.Tests.{ended, generated_of};

use super::tables::{GeneratedTables, all_generated};
use rows::kinds::BlockKind;
use view::buffers::Plan;

// Whether row r, a return in a block that ends before row `end`, is the last step of its own block: no row after it is as deep.
#[tactic(auto, using(crate::proofs::Blocks::last_alone, crate::proofs::Blocks::last_before))]
fn ends_block(plan: &Plan<'_, '_, '_>, r: usize, end: usize) -> bool
    ensures { result ≡ ends_block (level (block_of (words_of plan.now r))) (map block_of (cuts plan.now.words.now plan.now.rows.now (r + 1) (end - (r + 1)))) }
{
    end <= r || end == r + 1 || plan.word(r + 1, 0) < plan.word(r, 0)
}

// Whether row r, in a block that ends before row `end`, is no loop, and no return or the last step of its block.
#[tactic(auto, using(crate::proofs::Blocks::ended_loop, crate::proofs::Blocks::ended_return, crate::proofs::Blocks::ended_other))]
fn is_last(plan: &Plan<'_, '_, '_>, r: usize, end: usize) -> bool
    ensures { result ≡ ended plan.now end r }
{
    match plan.block_kind(r) {
        BlockKind::Loop => false,
        BlockKind::Return => ends_block(plan, r, end),
        _ => true,
    }
}

// Whether the block of table t has no loop, and each return of it is the last step of its block: a chain as `arms::block_armed` is, with
// another test.
fn block_ends(plan: &Plan<'_, '_, '_>, t: usize) -> bool
    ensures { result ≡ returns_last (map block_of (rows_of plan.now t)) }
{
    let end = plan.end_row(t);
    plan.row_range(t).all(|r| is_last(plan, r, end))
}

// Refusal 8 of a generated term.
fn term_returns(plan: &Plan<'_, '_, '_>, g: GeneratedTables) -> bool
    ensures { result ≡ ((term_at (env_of plan.now) (generated_of plan.now g).term).multi || returns_last (generated_of plan.now g).rows) }
{
    plan.is_multi(g.number(plan)) || block_ends(plan, g.block)
}

// One line over the chain of `tables`: as at `arms::block_armed`, what differs is the test alone.
#[tactic(auto, using(crate::proofs::Blocks::returns_tests, crate::proofs::Bytes::returns_any))]
pub fn returns_fit(plan: &Plan<'_, '_, '_>) -> bool
    ensures own { result ≡ returns_fit (plan_of plan.now) }
    ensures any { (bytes : List ℕ) → result ≡ returns_fit (plan_in bytes plan.now.words.now plan.now.rows.now plan.now.tables.now) }
{
    all_generated(plan, |g| term_returns(plan, g))
}
