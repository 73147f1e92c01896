// The refusals 1 to 10 of a plan.
#![tactic(auto)]

ghost use Rattle.std.specs.Prelude.{◌≡◌, ◌≤◌, length};
ghost use Rattle.plan.specs.Refusal.{outcome, refusal};
ghost use Rattle.layout.specs.Filling.{SameBuffers};
ghost use Rattle.refusal.specs.Number.{refusal_number};
ghost use Rattle.reader.specs.Reading.{Room, Enough, Says, Keeps, KeepsBuffers};
ghost use Rattle.refusals.specs.Answered.{Indexes};

use layout::{Buffers, Filled};
use reader::Held;
use refusal::Refusal;

// Reads a plan into buffers that are long enough for it and judges it: its lowest refusal, or how many rows and tables the buffers
// hold; then its variants are indexed. The refusals 1 and 2 change nothing in the buffers, and 3 nothing in the index. `Room` is a fact of the
// buffers and of the plan that is read, and so no invariant of `Buffers`.
pub fn read_into(
    plan: &[u8],
    buffers: &mut Buffers<'_>,
    above: &mut [u8],
    index: &mut [u32; 1281],
) -> Result<Held, Refusal>
    requires { Room plan.now buffers.old.words.now buffers.old.rows.now buffers.old.tables.now above.old }
    ensures same { SameBuffers buffers.old buffers.new }
    ensures says { Says (outcome plan.now) plan.now result buffers.new.words.now buffers.new.rows.now buffers.new.tables.now }
    ensures indexes { Indexes result buffers.new.words.now buffers.new.rows.now buffers.new.tables.now index.new }
    ensures keeps { KeepsBuffers 2 result buffers.old buffers.new }
    ensures keeps_index { Keeps 3 result index.old index.new }
{
    let held = reader::read_into(plan, buffers, above)?;
    let laid = reader::plan_held(plan, buffers, held.tables);
    exists::judge(&laid, index)?;
    Ok(held)
}

// The same into buffers that are long enough for each plan, one by one: each has its length in its type, as `Buffers` has not.
pub fn read(
    plan: &[u8],
    words: &mut [u32; 65536],
    rows: &mut [u32; 32769],
    tables: &mut [u32; 16385],
    index: &mut [u32; 1281],
) -> Result<Held, Refusal>
    ensures says { Says (outcome plan.now) plan.now result words.new rows.new tables.new }
    ensures indexes { Indexes result words.new rows.new tables.new index.new }
    ensures keeps { Keeps 2 result words.old words.new × Keeps 2 result rows.old rows.new × Keeps 2 result tables.old tables.new }
    ensures keeps_index { Keeps 3 result index.old index.new }
{
    let mut above = [0u8; 32770];
    let mut buffers = Buffers {
        words,
        rows,
        tables,
        filled: Filled::default(),
    };
    read_into(plan, &mut buffers, &mut above, index)
}

// The lowest refusal of a plan's bytes, by buffers of these lengths.
fn refused_in<const WORDS: usize, const ROWS: usize, const TABLES: usize, const LEVELS: usize>(
    plan: &[u8],
) -> Option<Refusal>
    requires enough { Enough (length plan.now) WORDS ROWS TABLES LEVELS }
    requires few { (WORDS ≤ 65536) × (ROWS ≤ 65536) × (TABLES ≤ 65536) × (LEVELS ≤ 65536) }
    ensures { refusal_number result ≡ refusal plan.now }
{
    let mut words = [0u32; WORDS];
    let mut rows = [0u32; ROWS];
    let mut tables = [0u32; TABLES];
    let mut above = [0u8; LEVELS];
    let mut index = [0u32; 1281];
    let mut buffers = Buffers {
        words: &mut words,
        rows: &mut rows,
        tables: &mut tables,
        filled: Filled::default(),
    };
    read_into(plan, &mut buffers, &mut above, &mut index).err()
}

// The lowest refusal of a plan's bytes, none for an accepted plan. Most plans are small: buffers that are long enough for each plan
// take longer to clear than a small plan to read.
pub fn refused(plan: &[u8]) -> Option<Refusal>
    ensures { refusal_number result ≡ refusal plan.now }
{
    if plan.len() <= 4096 {
        refused_in::<4096, 2049, 1025, 2050>(plan)
    } else {
        refused_in::<65536, 32769, 16385, 32770>(plan)
    }
}
