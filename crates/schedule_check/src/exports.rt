// The entry as a C function, on slices and numbers: a slice passes as a pointer and a length. It returns the answer's number and gives the
// length as the first entry of `told`, if there is one.
ghost use Rattle.std.specs.Prelude.{length};
ghost use Rattle.schedule_rules.specs.Sheet.{sheet_answer};
ghost use Rattle.schedule_check.specs.Answered.{Exports};

// The sheet of a plan's schedule faults.
pub fn rizhavel_schedule(plan: &[u8], out: &mut [u8], told: &mut [usize]) -> u32
    ensures { Exports (sheet_answer plan.now (length out.old)) result out.old out.new told.old told.new }
{
    let checked = super::schedule(plan, out);
    if !told.is_empty() {
        told[0] = checked.unwrap_or_default();
    }
    checked.err().map_or(0, u32::from)
}
