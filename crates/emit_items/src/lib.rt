// The items before the terms: header, context trait and internal types, as codegen.rs writes them.
// What a contract says, it says of the environment that the plan's buffers hold (`env_of` of the crate view).
#![tactic(auto, using(crate::specs::Shown::shown))]

pub mod ctx_trait;
pub mod header;
pub mod internal_types;

ghost use Rattle.text.specs.Writes.{SameSink};
ghost use Rattle.emits.specs.Sinks.{Shows};
ghost use Rattle.codegen.specs.Items.{items};
ghost use Rattle.view.specs.Buffers.{plan_of};
ghost use Rattle.sema.specs.Holds.{VariantsIndexed};

use text::sink::Sink;
use view::buffers::Plan;
use view::tables::OPTIONS;

// All that stands before the terms.
pub fn items(w: &mut Sink<'_>, plan: &Plan<'_, '_, '_>)
    ensures shows { VariantsIndexed plan.now → let p = plan_of plan.now in Shows p.env 0 (items p) w.old w.new }
    ensures same { SameSink w.old w.new }
{
    // A single cell is read by its number in the row, in the order of the table's names line.
    let nopragmas = plan.flag(plan.row_at(OPTIONS, 0), 0);
    header::generate_header(w, plan, nopragmas);
    crate::ctx_trait::generate_ctx_trait(w, plan);
    internal_types::generate_internal_types(w, plan);
}
