// The sheet: a names line, then the lines of each generated term.
ghost use Rattle.std.specs.Prelude.{ℕ, List};
ghost use Rattle.text.specs.Writes.{Writes, SameSink};
ghost use Rattle.view.specs.Buffers.{plan_of};
ghost use Rattle.view.specs.Tables.{plan_in};
ghost use Rattle.schedule_rules.specs.Passes.{Passes};
ghost use Rattle.schedule_rules.specs.Sheet.{sheet};
ghost use Rattle.faults.specs.Terms.{TermPut};

use super::walk::put_block;
use checks::tables::{GeneratedTables, generated_count, generated_tables};
use row_frames::stack::Frame;
use text::sink::Sink;
use view::bindings::Bindings;
use view::buffers::Plan;

// The lines of the generated term that these tables hold.
fn put_term(
    w: &mut Sink<'_>,
    frames: &mut [Frame<()>; 65],
    plan: &Plan<'_, '_, '_>,
    g: GeneratedTables,
)
    ensures { TermPut plan.now g w.old w.new }
{
    let bindings = Bindings {
        plan,
        table: g.bindings,
    };
    put_block(
        w,
        frames,
        &bindings,
        g.number(plan),
        &plan.row_range(g.block),
    );
}

// The sheet of the plan that the buffers hold: their first seven tables are its environment, and three follow for each generated term.
pub fn put_sheet(w: &mut Sink<'_>, plan: &Plan<'_, '_, '_>)
    ensures own { Passes (plan_of plan.now) → Writes (sheet (plan_of plan.now)) w.old w.new }
    ensures any { (bytes : List ℕ) → let p = plan_in bytes plan.now.words.now plan.now.rows.now plan.now.tables.now in Passes p → Writes (sheet p) w.old w.new }
    ensures same { SameSink w.old w.new }
{
    let mut frames = [Frame::root(()); 65];
    w.put_bytes(b"term row fault\n");
    for i in 0..generated_count(plan) {
        put_term(w, &mut frames, plan, generated_tables(i));
    }
}
