// The lines of the sheet.
ghost use Rattle.std.specs.Prelude.{cond, []};
ghost use Rattle.text.specs.Writes.{Writes};
ghost use Rattle.schedule_rules.specs.Sheet.{fault_line, row_lines};
ghost use Rattle.faults.specs.Told.{letters_told};

use crate::check::Letters;
use text::sink::Sink;

// The line of a fault, if there is one.
#[tactic(auto, using(text::specs::Writes::writes_nil))]
fn put_fault(w: &mut Sink<'_>, term: usize, row: usize, letter: u8, is_there: bool)
    ensures { Writes (cond is_there (fault_line term row letter) []) w.old w.new }
{
    if !is_there {
        return;
    }
    w.put_decimal(term as u64);
    w.put_byte(b' ');
    w.put_decimal(row as u64);
    w.put_byte(b' ');
    w.put_byte(letter);
    w.put_byte(b'\n');
}

// The lines of a row's faults, in letter order: three calls, since a loop over letters and flags is no plainer and needs an invariant.
#[tactic(auto, using(text::specs::Writes::writes_then), unfolding(schedule_rules::specs::Sheet::row_lines))]
pub fn put_row(w: &mut Sink<'_>, term: usize, row: usize, faults: Letters)
    ensures { Writes (row_lines term row (letters_told faults)) w.old w.new }
{
    put_fault(w, term, row, b'a', faults.a);
    put_fault(w, term, row, b'b', faults.b);
    put_fault(w, term, row, b'c', faults.c);
}
