// The schedule check (Req 01): from a plan's bytes and a buffer to the sheet of the schedule faults.
#![tactic(auto)]

pub mod exports;

ghost use Rattle.std.specs.Prelude.{◌+◌, ◌≤◌, ◌<◌, length};
ghost use Rattle.plan.specs.Refusal.{accepted};
ghost use Rattle.schedule_rules.specs.Passes.{Passes};
ghost use Rattle.schedule_rules.specs.Sheet.{sheet, sheet_answer_of, sheet_answer};
ghost use Rattle.text.specs.Sink.{Puts};
ghost use Rattle.view.specs.Buffers.{plan_of};
ghost use Rattle.reader.specs.Reading.{Enough, Room};
ghost use Rattle.schedule_check.specs.Answered.{Answers};

use faults::sheet::put_sheet;
use layout::{Buffers, Filled};
use refusal::Refusal;
use text::sink::{Sink, store};
use view::buffers::Plan;

// Puts the sheet into a buffer from its start: its length, or one more than the room where the sheet is longer than that.
fn put_measured(out: &mut [u8], room: usize, plan: &Plan<'_, '_, '_>) -> usize
    requires room { room < 18446744073709551615 }
    requires passes { Passes (plan_of plan.now) }
    ensures { Puts (room + 1) (sheet (plan_of plan.now)) out.old 0 out.new result }
{
    let mut w = Sink::new(out, room + 1);
    put_sheet(&mut w, plan);
    w.at
}

// The answer for an accepted plan. The sheet is measured as it is put into a draft, so that one that is longer than the buffer changes no byte of
// it. Where the draft has all of it, it is copied from there; else the faults are found again. To measure with no draft would find them twice in
// each plan.
fn answer_held(out: &mut [u8], plan: &Plan<'_, '_, '_>, draft: &mut [u8]) -> Result<usize, Refusal>
    requires { Passes (plan_of plan.now) }
    ensures { Answers (sheet_answer_of (length out.old) (accepted (plan_of plan.now))) result out.old out.new }
{
    let room = out.len();
    let length = put_measured(draft, room, plan);
    if room < length {
        return Err(Refusal::Room);
    }
    if length <= draft.len() {
        store(out, 0, &draft[..length]);
    } else {
        put_measured(out, room, plan);
    }
    Ok(length)
}

// The answer for any bytes, with buffers that are long enough for them. The draft serves the reader before it has the sheet.
// `Room` is of the buffers and of the plan that is read into them, so it is no invariant of `Buffers`.
fn answer_read(
    plan: &[u8],
    out: &mut [u8],
    buffers: &mut Buffers<'_>,
    draft: &mut [u8],
) -> Result<usize, Refusal>
    requires { Room plan.now buffers.old.words.now buffers.old.rows.now buffers.old.tables.now draft.old }
    ensures { Answers (sheet_answer plan.now (length out.old)) result out.old out.new }
{
    let mut index = [0u32; 1281];
    let held = refusals::read_into(plan, buffers, draft, &mut index)?;
    let laid = reader::plan_held(plan, buffers, held.tables);
    answer_held(out, &laid, draft)
}

// The answer with buffers of these lengths, which are long enough for the plan. The draft has as many bytes as the plan may have: of 20,000 generated
// plans none has a sheet that is a tenth as long as it. Where nearly each row has faults, a sheet can be longer than its plan (75,564 bytes for
// 65,521). A draft that holds every sheet (288,369 bytes, `schedule_rules/proofs/Room`) would be cleared for each long plan, to save the second
// search of such plans alone.
fn answer_with<const LENGTH: usize, const ROWS: usize, const TABLES: usize>(
    plan: &[u8],
    out: &mut [u8],
) -> Result<usize, Refusal>
    requires enough { Enough (length plan.now) LENGTH ROWS TABLES LENGTH }
    requires few { (LENGTH ≤ 65536) × (ROWS ≤ 65536) × (TABLES ≤ 65536) }
    ensures { Answers (sheet_answer plan.now (length out.old)) result out.old out.new }
{
    let mut words = [0u32; LENGTH];
    let mut rows = [0u32; ROWS];
    let mut tables = [0u32; TABLES];
    let mut draft = [0u8; LENGTH];
    let mut buffers = Buffers {
        words: &mut words,
        rows: &mut rows,
        tables: &mut tables,
        filled: Filled::default(),
    };
    answer_read(plan, out, &mut buffers, &mut draft)
}

// Buffers that are long enough for each plan take longer to clear than a small plan to check. Short and long plans have a function each, which is
// not compiled into what calls it, so that a short plan touches no stack that long buffers take.
#[inline(never)]
fn answer_short(plan: &[u8], out: &mut [u8]) -> Result<usize, Refusal>
    requires { length plan.now ≤ 2048 }
    ensures { Answers (sheet_answer plan.now (length out.old)) result out.old out.new }
{
    if plan.len() <= 512 {
        return answer_with::<512, 257, 129>(plan, out);
    }
    answer_with::<2048, 1025, 513>(plan, out)
}

#[inline(never)]
fn answer_long(plan: &[u8], out: &mut [u8]) -> Result<usize, Refusal>
    ensures { Answers (sheet_answer plan.now (length out.old)) result out.old out.new }
{
    if plan.len() <= 8192 {
        return answer_with::<8192, 4097, 2049>(plan, out);
    }
    if plan.len() <= 32768 {
        return answer_with::<32768, 16385, 8193>(plan, out);
    }
    answer_with::<65536, 32769, 16385>(plan, out)
}

// The sheet of a plan's schedule faults, put into a buffer from its start: its length. A plan is refused by 1 to 10, and a sheet that is longer than
// the buffer by 11; then the buffer is as it was.
pub fn schedule(plan: &[u8], out: &mut [u8]) -> Result<usize, Refusal>
    ensures { Answers (sheet_answer plan.now (length out.old)) result out.old out.new }
{
    if plan.len() <= 2048 {
        return answer_short(plan, out);
    }
    answer_long(plan, out)
}
