// The rows of each table, from a text into words.
#![tactic(auto)]

pub mod kinds;

ghost use Rattle.std.specs.Prelude.{◌≡◌, ◌+◌, ◌-◌, ◌<◌, ◌≤◌, eqb, length, get_or};
ghost use Rattle.text.specs.Split.{split};
ghost use Rattle.rows.specs.Cells.{cells};
ghost use Rattle.cells.specs.Writes.{Writes};
ghost use Rattle.rows.specs.Row.{options_words, type_words, variant_words, term_words, generated_words, binding_words, block_words, text_words, row_words};
ghost use Rattle.rows.specs.Table.{table_number};

use cells::lists::{ListOf, put_list};
use cells::values::{Cell, Words};
use kinds::{BindingKind, BlockKind, Shape, TypeKind};
use tokens::Line;

// The sorts of tables of a plan.
#[derive(Clone, Copy, PartialEq, Eq)]
pub enum Table {
    Options,
    File,
    Sym,
    Pos,
    Types,
    Variants,
    Terms,
    Generated,
    Bindings,
    Block,
}

// Writes the columns of a line from one on, each as the sort of cell at its place says. Where a kind stands between them, what a row holds
// is written value by value.
fn put_cells(sorts: &[Cell], line: &Line<'_>, from: usize, words: &mut Words<'_>) -> Option<()>
    requires { (from + length sorts.now ≤ length (split (eqb 32) line.now.text.now)) × (from + length sorts.now ≤ 9) }
    ensures { Writes (cells sorts.now (split (eqb 32) line.now.text.now) from) words.old result words.new }
{
    for (k, sort) in sorts.iter().enumerate() {
        words.push_cell(*sort, line.column(from + k))?;
    }
    Some(())
}

#[tactic(auto, using(cells::proofs::values::Laws::writes_none, crate::proofs::Laws::row_lacks), unfolding(crate::specs::Row::options_words))]
fn put_options(line: &[u8], words: &mut Words<'_>) -> Option<()>
    ensures { Writes (options_words line.now) words.old result words.new }
{
    let line = Line::of(line, 4)?;
    put_cells(
        &[Cell::Bit, Cell::Bit, Cell::Bit, Cell::Threshold],
        &line,
        0,
        words,
    )
}

// No `put_cells`: an array made for each row took 6 to 9 percent longer, where those of `put_options` and `put_term` took less.
#[tactic(auto, using(cells::proofs::values::Laws::writes_none, crate::proofs::Laws::row_lacks), unfolding(crate::specs::Row::type_words))]
fn put_type(line: &[u8], words: &mut Words<'_>) -> Option<()>
    ensures { Writes (type_words line.now) words.old result words.new }
{
    let line = Line::of(line, 6)?;
    let kind = TypeKind::read(line.column(0))?;
    let bits = kind.bits();
    words.push(kind.into())?;
    words.push_cell(Cell::Number, line.column(1))?;
    words.push_cell(bits, line.column(2))?;
    words.push_cell(bits, line.column(3))?;
    words.push_cell(kind.pos(), line.column(4))?;
    put_list(kind.list(), line.column(5), words)
}

#[tactic(auto, using(cells::proofs::values::Laws::writes_none, crate::proofs::Laws::row_lacks), unfolding(crate::specs::Row::variant_words))]
fn put_variant(line: &[u8], words: &mut Words<'_>) -> Option<()>
    ensures { Writes (variant_words line.now) words.old result words.new }
{
    let line = Line::of(line, 4)?;
    words.push_cell(Cell::Number, line.column(0))?;
    words.push_cell(Cell::Number, line.column(1))?;
    let shape = Shape::read(line.column(2))?;
    words.push(shape.into())?;
    put_list(shape.list(), line.column(3), words)
}

#[tactic(auto, using(cells::proofs::values::Laws::writes_none, crate::proofs::Laws::row_lacks), unfolding(crate::specs::Row::term_words))]
fn put_term(line: &[u8], words: &mut Words<'_>) -> Option<()>
    ensures { Writes (term_words line.now) words.old result words.new }
{
    let line = Line::of(line, 9)?;
    let sorts = [
        Cell::Number,
        Cell::Number,
        Cell::Number,
        Cell::Bit,
        Cell::Bit,
        Cell::Function,
        Cell::Function,
        Cell::Bit,
    ];
    put_cells(&sorts, &line, 0, words)?;
    put_list(Some(ListOf::Numbers), line.column(8), words)
}

#[tactic(auto, using(cells::proofs::values::Laws::writes_none, crate::proofs::Laws::row_has, crate::proofs::Laws::row_lacks), unfolding(crate::specs::Row::generated_words))]
fn put_generated(line: &[u8], words: &mut Words<'_>) -> Option<()>
    ensures { Writes (generated_words line.now) words.old result words.new }
{
    let line = Line::of(line, 1)?;
    words.push_cell(Cell::Number, line.column(0))
}

#[tactic(auto, using(cells::proofs::values::Laws::writes_none, crate::proofs::Laws::row_lacks), unfolding(crate::specs::Row::binding_words))]
fn put_binding(line: &[u8], words: &mut Words<'_>) -> Option<()>
    ensures { Writes (binding_words line.now) words.old result words.new }
{
    let line = Line::of(line, 4)?;
    let kind = BindingKind::read(line.column(0))?;
    words.push(kind.into())?;
    words.push_cell(kind.a(), line.column(1))?;
    words.push_wide(kind.b(), line.column(2))?;
    put_list(Some(ListOf::Numbers), line.column(3), words)
}

#[tactic(auto, using(cells::proofs::values::Laws::writes_none, crate::proofs::Laws::row_lacks), unfolding(crate::specs::Row::block_words))]
fn put_block_row(line: &[u8], words: &mut Words<'_>) -> Option<()>
    ensures { Writes (block_words line.now) words.old result words.new }
{
    let line = Line::of(line, 5)?;
    words.push_cell(Cell::Number, line.column(0))?;
    let kind = BlockKind::read(line.column(1))?;
    words.push(kind.into())?;
    words.push_cell(kind.a(), line.column(2))?;
    words.push_wide(kind.b(), line.column(3))?;
    put_list(Some(kind.list()), line.column(4), words)
}

// A text's words: its start and its end in the plan. The place is asked for beside the line, since the rows of the other tables are the
// line alone.
fn put_text(from: usize, line: &[u8], words: &mut Words<'_>) -> Option<()>
    requires { from + length line.now < 4294967296 }
    ensures { Writes (text_words from line.now) words.old result words.new }
{
    words.push(from as u32)?;
    words.push((from + line.len()) as u32)
}

// Writes the words of a line of a table that starts at a place of the plan.
#[tactic(auto, unfolding(crate::specs::Row::row_words))]
pub fn put_row(table: Table, from: usize, line: &[u8], words: &mut Words<'_>) -> Option<()>
    requires { from + length line.now < 4294967296 }
    ensures { Writes (row_words (table_number table) from line.now) words.old result words.new }
{
    match table {
        Table::Options => put_options(line, words),
        Table::File | Table::Sym | Table::Pos => put_text(from, line, words),
        Table::Types => put_type(line, words),
        Table::Variants => put_variant(line, words),
        Table::Terms => put_term(line, words),
        Table::Generated => put_generated(line, words),
        Table::Bindings => put_binding(line, words),
        Table::Block => put_block_row(line, words),
    }
}
