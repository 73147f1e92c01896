// Reads rows out of the buffers that the layout fills: `words`, `rows` (where each row's words end) and `tables` (where each
// table's rows end). Nothing is asked of the buffers: what is not there reads as 0, and a number of no kind as one of the kinds that there are.
#![tactic(auto)]

pub mod binding;
pub mod bindings;
pub mod block;
pub mod buffers;
pub mod environment;
pub mod heads;
pub mod tables;
pub mod variants;

ghost use Rattle.std.specs.Prelude.{◌≡◌, ◌+◌, ◌<◌, get_or, drop};
ghost use Rattle.rows.specs.View.{nth};
ghost use Rattle.layout.specs.View.{cut};

// The entry i of an index, 0 past its end.
fn bound(index: &[u32], i: usize) -> usize
    ensures { (result ≡ get_or index.now i 0) × (result < 4294967296) }
{
    word_in(index, i) as usize
}

// The entry after the entry i.
fn next_bound(index: &[u32], i: usize) -> usize
    ensures { (result ≡ get_or index.now (i + 1) 0) × (result < 4294967296) }
{
    bound(index, i.saturating_add(1))
}

// The part r of the words that the entries of an index end. Rows are parts by `rows`, and the index of variants has parts by itself.
#[tactic(auto, using(crate::proofs::Laws::part_found), unfolding(layout::specs::View::cut))]
fn part<'a>(words: &'a [u32], ends: &[u32], r: usize) -> &'a [u32]
    ensures { result.now ≡ cut words.now ends.now r }
{
    let to = next_bound(ends, r).min(words.len());
    words.get(bound(ends, r)..to).unwrap_or(&[])
}

// A row's words after the first `header`.
#[tactic(auto, using(crate::proofs::Laws::drop_min))]
fn list_in(row: &[u32], header: usize) -> &[u32]
    ensures { result.now ≡ drop header row.now }
{
    &row[header.min(row.len())..]
}

// The word k of a row's words, 0 past their end.
pub fn word_in(row: &[u32], k: usize) -> u32
    ensures { result ≡ nth row.now k }
{
    row.get(k).copied().unwrap_or(0)
}
