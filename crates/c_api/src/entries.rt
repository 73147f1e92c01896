// The entries as C functions, on slices and numbers: a slice passes as a pointer and a length. Each returns the answer's number and
// gives the length and the count as the first two entries of `told`, as far as there are any.
// They differ in the entry that they call: each is a symbol of the library.
ghost use Rattle.std.specs.Prelude.{length};
ghost use Rattle.codegen.specs.Answer.{answer, terms_answer};
ghost use Rattle.emitter.specs.Answered.{items_answer, Exports};
ghost use Rattle.schedule_check.specs.Answered.{Exports as ExportsSheet};
ghost use Rattle.schedule_rules.specs.Sheet.{sheet_answer};

// The whole module.
#[unsafe(no_mangle)]
pub extern "C" fn rizhavel_whole(plan: &[u8], out: &mut [u8], told: &mut [usize]) -> u32
    ensures { Exports (answer plan.now (length out.old)) result out.old out.new told.old told.new }
{
    emitter::exports::rizhavel_whole(plan, out, told)
}

// The text of the generated terms alone.
#[unsafe(no_mangle)]
pub extern "C" fn rizhavel_terms(plan: &[u8], out: &mut [u8], told: &mut [usize]) -> u32
    ensures { Exports (terms_answer plan.now (length out.old)) result out.old out.new told.old told.new }
{
    emitter::exports::rizhavel_terms(plan, out, told)
}

// Header, trait and types alone.
#[unsafe(no_mangle)]
pub extern "C" fn rizhavel_items(plan: &[u8], out: &mut [u8], told: &mut [usize]) -> u32
    ensures { Exports (items_answer plan.now (length out.old)) result out.old out.new told.old told.new }
{
    emitter::exports::rizhavel_items(plan, out, told)
}

// The sheet of the schedule faults, for which `told` has the length alone: a sheet has no literals.
#[unsafe(no_mangle)]
pub extern "C" fn rizhavel_schedule(plan: &[u8], out: &mut [u8], told: &mut [usize]) -> u32
    ensures { ExportsSheet (sheet_answer plan.now (length out.old)) result out.old out.new told.old told.new }
{
    schedule_check::exports::rizhavel_schedule(plan, out, told)
}
