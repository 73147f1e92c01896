// Refusals 5 and 6, and the refusals 4 to 10 in their order.
#![tactic(auto)]

pub mod counts;
pub mod environment;
pub mod generated;
pub mod indexed;
pub mod lengths;

ghost use Rattle.std.specs.Prelude.{◌≡◌, List, ℕ, OnOk};
ghost use Rattle.plan.specs.Refusal.{number_of, judged};
ghost use Rattle.view.specs.Buffers.{plan_of};
ghost use Rattle.view.specs.Tables.{plan_in};
ghost use Rattle.refusal.specs.Number.{result_number};
ghost use Rattle.view.specs.Index.{VariantIndexIn};

use checks::{arms, loops, lower, most, returns};
use indexed::Indexed;
use refusal::Refusal;
use view::buffers::Plan;
use view::variants;

// The lowest of the refusals 4 to 10, if there is one; a plan that passes has its variants indexed.
#[tactic(auto, using(crate::proofs::Bytes::judged_any, crate::proofs::Judged::arguments_are_few, crate::proofs::Judged::few_types, crate::proofs::Judged::few_variants), unfolding(plan::specs::Refusal::judged))]
pub fn judge(plan: &Plan<'_, '_, '_>, index: &mut [u32; 1281]) -> Result<(), Refusal>
    ensures number { result_number result ≡ number_of (judged (plan_of plan.now)) }
    ensures any { (bytes : List ℕ) → let p = plan.now in result_number result ≡ number_of (judged (plan_in bytes p.words.now p.rows.now p.tables.now)) }
    ensures indexed { OnOk result (VariantIndexIn plan.now index.new) }
{
    if !most::within_most(plan) {
        return Err(Refusal::Most);
    }
    variants::index_variants(plan, index);
    let indexed = Indexed {
        plan: Plan { index, ..*plan },
    };
    if !generated::all_exist(&indexed) {
        return Err(Refusal::Exists);
    }
    if !lengths::lengths_fit(&indexed) {
        return Err(Refusal::Lengths);
    }
    if !lower::sources_lower(plan) {
        return Err(Refusal::Lower);
    }
    if !returns::returns_fit(plan) {
        return Err(Refusal::Returns);
    }
    if !arms::matches_have_arms(plan) {
        return Err(Refusal::Armless);
    }
    if !loops::loops_iterate(plan) {
        return Err(Refusal::Loop);
    }
    Ok(())
}
