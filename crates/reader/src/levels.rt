// The levels of blocks, and the tables of one row.
ghost use Rattle.std.specs.Prelude.{◌≡◌, ◌&&◌, ◌+◌, ◌-◌, ◌≤◌, ◌<◌, ltb, [], ◌∷◌, map, length, get_or, set};
ghost use Rattle.plan.specs.Layout.{nested, steps};
ghost use Rattle.rows.specs.View.{block_of};
ghost use Rattle.rows.specs.Kinds.{block_number};
ghost use Rattle.rows.specs.Table.{table_number};
ghost use Rattle.layout.specs.Scan.{table_shaped, shaped};
ghost use Rattle.layout.specs.View.{cuts, tables_of, Indexed};
ghost use Rattle.reader.specs.Level.{stands, below_code, code, stored};

use rows::Table;
use rows::kinds::BlockKind;
use view::buffers::Plan;

// What may stand at a level next. The levels of a block are kept in bytes that are lent, and serve as a draft of the text later: each is
// stored as its number there.
#[derive(Clone, Copy)]
enum Below {
    Steps,
    Arms,
    Nothing,
}

// What may stand below a row of a kind.
impl From<BlockKind> for Below {
    ghost from_gives = { λ kind below. code below ≡ below_code (block_number kind) };

    #[tactic(auto, unfolding(crate::specs::Level::below_code))]
    fn from(kind: BlockKind) -> Below {
        match kind {
            BlockKind::Match => Below::Arms,
            BlockKind::Return => Below::Nothing,
            _ => Below::Steps,
        }
    }
}

impl Below {
    // Whether a row of a kind may stand there.
    #[tactic(auto, unfolding(crate::specs::Level::stands))]
    fn allows(self, kind: BlockKind) -> bool
        ensures { result ≡ stands (code self) (block_number kind) }
    {
        match self {
            Below::Steps => kind.is_step(),
            Below::Arms => !kind.is_step(),
            Below::Nothing => false,
        }
    }
}

impl From<Below> for u8 {
    ghost from_gives = { λ below n. n ≡ code below };

    fn from(below: Below) -> u8 {
        below as u8
    }
}

impl From<u8> for Below {
    ghost from_gives = { λ n below. below ≡ stored n };

    fn from(n: u8) -> Below {
        match n {
            1 => Below::Arms,
            2 => Below::Nothing,
            _ => Below::Steps,
        }
    }
}

// The levels at which the next row of a block may stand, with what may stand at each: the first `depth` of the bytes, which are lent.
#[derive(Drop)]
struct Levels<'a> {
    above: &'a mut [u8],
    depth: usize,
    ghost inside: { depth ≤ length above.now },
}

impl<'a> Levels<'a> {
    // Before the first row: steps at level 0.
    fn new(above: &'a mut [u8]) -> Levels<'a>
        requires { 0 < length above.old }
        ensures above { result.above.now ≡ set above.old 0 0 }
        ensures depth { result.depth ≡ 1 }
    {
        above[0] = u8::from(Below::Steps);
        Levels { above, depth: 1 }
    }

    // Whether a row of a kind may stand at a level.
    #[tactic(auto, using(crate::proofs::levels::Laws::stands_stored))]
    fn allows(&self, level: usize, kind: BlockKind) -> bool
        ensures { result ≡ ltb level self.now.depth && stands (get_or self.now.above.now level 0) (block_number kind) }
    {
        level < self.depth && Below::from(self.above[level]).allows(kind)
    }

    // Keeps what may stand below a row of a kind that stands at a level.
    fn put(&mut self, level: usize, kind: BlockKind)
        requires { level + 1 < length self.old.above.now }
        ensures above { self.new.above.now ≡ set self.old.above.now (level + 1) (below_code (block_number kind)) }
        ensures depth { self.new.depth ≡ level + 2 }
    {
        self.above[level + 1] = u8::from(Below::from(kind));
        self.depth = level + 2;
    }
}

// Whether the rows of a block nest. No `all`: `put` asks for a place for
// the level, which the loop's invariant gives, and which a closure would have to ask of `all`.
fn levels_fit(plan: &Plan<'_, '_, '_>, from: usize, to: usize, above: &mut [u8]) -> bool
    requires { (from ≤ to) × (to + 2 ≤ length above.old) × (to ≤ 65536) }
    ensures { result ≡ nested (steps ∷ []) (map block_of (cuts plan.now.words.now plan.now.rows.now from (to - from))) }
{
    let mut levels = Levels::new(above);
    for r in from..to {
        let level = plan.word(r, 0);
        let kind = plan.block_kind(r);
        if !levels.allows(level, kind) {
            return false;
        }
        levels.put(level, kind);
    }
    true
}

// Whether a table has the rows that its sort asks for.
#[tactic(auto, using(view::proofs::Laws::cuts_length), unfolding(layout::specs::Scan::table_shaped))]
fn table_fits(
    plan: &Plan<'_, '_, '_>,
    table: Table,
    from: usize,
    to: usize,
    above: &mut [u8],
) -> bool
    requires { (from ≤ to) × (to + 2 ≤ length above.old) × (to ≤ 65536) }
    ensures { result ≡ table_shaped (table_number table) (cuts plan.now.words.now plan.now.rows.now from (to - from)) }
{
    match table {
        Table::Options | Table::Generated => to - from == 1,
        Table::Block => levels_fit(plan, from, to, above),
        _ => true,
    }
}

// Whether each table has the rows that its sort asks for. The buffer of the levels is the caller's, as there is no heap; that it has a place
// for each level is asked for in three contracts, since it is lent before the number of rows is known: no type could hold both.
// `rows` is read by the contract alone, which says of how many rows the tables are. No `all`, whose closure would have the buffer lent to it:
// what it answers did not prove.
pub fn all_fit(plan: &Plan<'_, '_, '_>, rows: usize, tables: usize, above: &mut [u8]) -> bool
    requires { Indexed plan.now.tables.now rows tables × (rows + 2 ≤ length above.old) × (rows ≤ 65536) × (tables ≤ 65536) }
    ensures { result ≡ shaped 0 (tables_of plan.now.words.now plan.now.rows.now plan.now.tables.now rows tables) }
{
    for t in 0..tables {
        let from = plan.first_row(t);
        let to = plan.first_row(t + 1);
        if !table_fits(plan, layout::table_at(t), from, to, above) {
            return false;
        }
    }
    true
}
