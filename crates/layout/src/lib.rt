// The layout of a plan: its tables' rows as words, in one pass over the lines.
#![tactic(auto)]

ghost use Rattle.std.specs.Prelude.{◌≡◌, false, ◌+◌, ◌-◌, ◌*◌, ◌≤◌, ◌<◌, eqb, length};
ghost use Rattle.text.specs.Split.{split, same};
ghost use Rattle.layout.specs.Scan.{sort_at, names, scan, Fill, Whole};
ghost use Rattle.layout.specs.Filling.{SameBuffers, Put, Ended, HasRoom, PutTable};
ghost use Rattle.rows.specs.Row.{row_words};
ghost use Rattle.cells.specs.Words.{Wrote};
ghost use Rattle.rows.specs.Table.{table_number};

use cells::values::Words;
use rows::Table;

// How many words, rows and tables stand at the fronts of the buffers.
#[derive(Clone, Copy, Debug, Default, PartialEq, Eq)]
pub struct Filled {
    pub words: usize,
    pub rows: usize,
    pub tables: usize,
}

// The buffers into which a plan is read, and how much of each is filled: the words of all rows, where each row ends, and where each
// table's rows end. The caller lends them: what a plan can hold is limited, and nothing is allocated (document 01). So each function that
// has such arrays makes its own value of them.
#[derive(Drop)]
pub struct Buffers<'a> {
    pub words: &'a mut [u32],
    pub rows: &'a mut [u32],
    pub tables: &'a mut [u32],
    pub filled: Filled,
}

// The sort of table i: seven of the whole plan, then three for each generated term.
#[tactic(auto, unfolding(crate::specs::Scan::sort_at))]
pub fn table_at(i: usize) -> Table
    ensures { table_number result ≡ sort_at i }
{
    match i {
        0 => Table::Options,
        1 => Table::File,
        2 => Table::Sym,
        3 => Table::Pos,
        4 => Table::Types,
        5 => Table::Variants,
        6 => Table::Terms,
        _ => match (i - 7) % 3 {
            0 => Table::Generated,
            1 => Table::Bindings,
            _ => Table::Block,
        },
    }
}

// The names line of a sort of table: a table of texts.
#[tactic(auto, unfolding(crate::specs::Scan::names))]
fn names(table: Table) -> &'static [u8]
    ensures { result.now ≡ names (table_number table) }
{
    match table {
        Table::Options => b"nopragmas log split threshold",
        Table::File => b"file",
        Table::Sym => b"sym",
        Table::Pos => b"pos",
        Table::Types => b"kind name extern nodebug pos list",
        Table::Variants => b"type name shape list",
        Table::Terms => b"name pos ret multi partial ctor xtor infallible list",
        Table::Generated => b"term",
        Table::Bindings => b"kind a b list",
        Table::Block => b"level kind a b list",
    }
}

impl Buffers<'_> {
    // Writes a row's words, and where they end.
    #[tactic(auto, using(crate::proofs::Laws::row_none))]
    fn put_row(&mut self, table: Table, from: usize, line: &[u8]) -> Option<()>
        requires { (0 < length line.now) × (from + length line.now ≤ 65536) × (self.old.filled.words + length line.now + 1 ≤ length self.old.words.now)
            × (self.old.filled.words ≤ from) × (self.old.filled.rows + 1 < length self.old.rows.now) }
        ensures same { SameBuffers self.old self.new }
        ensures row { Put self.old self.new (row_words (table_number table) from line.now) (length line.now) result }
    {
        let mut words = Words {
            out: self.words,
            at: self.filled.words,
        };
        rows::put_row(table, from, line, &mut words)?;
        self.filled.words = words.at;
        self.filled.rows += 1;
        self.rows[self.filled.rows] = self.filled.words as u32;
        Some(())
    }

    // Ends a table behind the rows that were written.
    fn end_table(&mut self)
        requires { (self.old.filled.tables + 1 < length self.old.tables.now) × (self.old.filled.rows ≤ 65536) }
        ensures same { SameBuffers self.old self.new }
        ensures ended { Ended self.old self.new }
    {
        self.filled.tables += 1;
        self.tables[self.filled.tables] = self.filled.rows as u32;
    }

    // Writes a table: its names line, its rows, and the empty line that ends it. Where the next one begins.
    fn put_table(&mut self, s: &[u8], start: usize) -> Option<usize>
        requires { (start < length s.now) × HasRoom s.now start self.old }
        ensures same { SameBuffers self.old self.new }
        ensures table { PutTable s.now start self.old self.new result }
    {
        let table = table_at(self.filled.tables);
        let e = tokens::find_far(s, start, b'\n')?;
        if !tokens::equal(&s[start..e], names(table)) {
            return None;
        }
        let mut at = e + 1;
        // The lines are cut by hand: a text row keeps its place in the plan, which an iterator over lines does not give.
        loop {
            let e = tokens::find_far(s, at, b'\n')?;
            if e == at {
                self.end_table();
                return Some(e + 1);
            }
            self.put_row(table, at, &s[at..e])?;
            at = e + 1;
        }
    }

    // Writes the words of all rows to words, where each row ends to rows, and where each table's rows end to tables. Where the next table
    // begins is what the one before it says, and so there is no `for`.
    pub fn fill(&mut self, s: &[u8]) -> Option<Filled>
        requires { (length s.now ≤ 65536) × (length s.now ≤ length self.old.words.now)
            × (length s.now + 2 ≤ 2 * length self.old.rows.now) × (length s.now + 4 ≤ 4 * length self.old.tables.now) }
        ensures same { SameBuffers self.old self.new }
        ensures fill { Fill self.old.words.now 0 self.old.rows.now 0 self.old.tables.now 0
            (scan 0 false 0 (split (eqb 10) s.now)) result self.new.words.now self.new.rows.now self.new.tables.now }
        ensures whole { Whole (length s.now) result }
    {
        self.filled = Filled::default();
        let mut at = 0;
        while at < s.len() {
            at = self.put_table(s, at)?;
        }
        let is_whole = table_at(self.filled.tables) == Table::Generated;
        is_whole.then_some(self.filled)
    }
}
