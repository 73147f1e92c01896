// A plan's bytes into the reader's buffers: refusals 1 to 3. How block rows nest is in `levels`.
#![tactic(auto)]

pub mod levels;

ghost use Rattle.std.specs.Prelude.{◌≡◌, ◌<◌, length};
ghost use Rattle.plan.specs.Refusal.{allowed, bytes_allowed};
ghost use Rattle.layout.specs.Filling.{SameBuffers};
ghost use Rattle.reader.specs.Reading.{reading, Room, Says, KeepsBuffers, Views, IsHeld};

use layout::Buffers;
use refusal::Refusal;
use view::buffers::Plan;

// How many bytes a plan has at most.
const LONGEST: usize = 65536;

// How many rows and tables the buffers hold.
#[derive(Clone, Copy, Debug, PartialEq, Eq)]
pub struct Held {
    pub rows: usize,
    pub tables: usize,
}

// Whether a byte is allowed in a plan.
fn is_allowed(c: u8) -> bool
    ensures { result ≡ allowed c }
{
    matches!(c, b'\n' | 0x20..=0x7e)
}

// Whether each byte is allowed in a plan. All are looked at, since a loop without a way out takes many bytes at a time.
fn all_allowed(s: &[u8]) -> bool
    ensures { result ≡ bytes_allowed s.now }
{
    let mut good = true;
    for c in s {
        good &= is_allowed(*c);
    }
    good
}

// What the buffers hold, as a plan's buffers; its variants are not indexed. This and the next are functions of their own, over a `&Buffers`:
// several fields of a `&mut Buffers` lent as `&` side by side in one function are not covered by the borrow checker.
fn view_of<'a>(bytes: &'a [u8], buffers: &'a Buffers<'_>) -> Plan<'a, 'a, 'a>
    ensures { Views bytes.now buffers.now result }
{
    Plan {
        bytes,
        words: &*buffers.words,
        rows: &*buffers.rows,
        tables: &*buffers.tables,
        index: &[],
    }
}

// The plan that the buffers hold in so many tables; its variants are not indexed.
pub fn plan_held<'a>(bytes: &'a [u8], buffers: &'a Buffers<'_>, tables: usize) -> Plan<'a, 'a, 'a>
    requires { tables < length buffers.now.tables.now }
    ensures { IsHeld bytes.now buffers.now tables result }
{
    let whole = view_of(bytes, buffers);
    let end = tables + 1;
    Plan {
        tables: &whole.tables[..end],
        ..whole
    }
}

// Reads a plan into buffers that are long enough for it; `above` is used for the levels of blocks. The refusals 1 and 2 change
// nothing in them. `Room` is a fact of the buffers and of the plan that is read, and so no invariant of `Buffers`.
pub fn read_into(plan: &[u8], buffers: &mut Buffers<'_>, above: &mut [u8]) -> Result<Held, Refusal>
    requires { Room plan.now buffers.old.words.now buffers.old.rows.now buffers.old.tables.now above.old }
    ensures same { SameBuffers buffers.old buffers.new }
    ensures says { Says (reading plan.now) plan.now result buffers.new.words.now buffers.new.rows.now buffers.new.tables.now }
    ensures keeps { KeepsBuffers 2 result buffers.old buffers.new }
{
    if LONGEST < plan.len() {
        return Err(Refusal::TooLong);
    }
    if !all_allowed(plan) {
        return Err(Refusal::Byte);
    }
    buffers.rows[0] = 0;
    buffers.tables[0] = 0;
    let filled = buffers.fill(plan).ok_or(Refusal::Layout)?;
    let laid = view_of(plan, buffers);
    if !crate::levels::all_fit(&laid, filled.rows, filled.tables, above) {
        return Err(Refusal::Layout);
    }
    // By its fields: a `From<Filled>` for this one place would name them in its body and in its clause.
    Ok(Held {
        rows: filled.rows,
        tables: filled.tables,
    })
}
