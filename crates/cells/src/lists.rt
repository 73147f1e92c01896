// Lists of a row, from a text into words.
ghost use Rattle.std.specs.Prelude.{◌≡◌, ◌+◌, ◌-◌, eqb};
ghost use Rattle.std.proofs.Math.Option.{some};
ghost use Rattle.text.specs.Split.{split};
ghost use Rattle.plan.specs.Layout.{◌⊛◌, number, field, pattern_binding};
ghost use Rattle.tokens.specs.Token.{told};
ghost use Rattle.cells.specs.Words.{word};
ghost use Rattle.cells.specs.Writes.{Writes};
ghost use Rattle.cells.specs.Items.{pattern_word, field_words, item, items, list_words};
ghost use Rattle.cells.specs.Lists.{list_number, sort_number};

use crate::values::Words;

// What a list's items are. No list is `None` of it: with a fourth kind here the loop over the items jumps by a table, which is slower.
#[derive(Clone, Copy)]
pub enum ListOf {
    Numbers,
    Fields,
    Patterns,
}

// The word for `_` in an arm's list.
pub const UNBOUND: u32 = 65537;

// An arm's binding: a number, or `_` for none.
#[tactic(auto, using(crate::proofs::lists::Laws::pattern_unbound, crate::proofs::lists::Laws::pattern_number), unfolding(tokens::specs::Token::told))]
fn read_pattern_binding(t: &[u8]) -> Option<u32>
    ensures { result ≡ told (some pattern_word ⊛ pattern_binding t.now) }
{
    if tokens::equal(t, b"_") {
        return Some(UNBOUND);
    }
    tokens::read_number(t)
}

// Writes a number.
#[tactic(auto, using(crate::proofs::values::Laws::writes_none, crate::proofs::values::Laws::word_none, crate::proofs::values::Laws::word_some))]
fn put_number(t: &[u8], words: &mut Words<'_>) -> Option<()>
    ensures { Writes (word (number t.now)) words.old result words.new }
{
    words.push(tokens::read_number(t)?)
}

// Writes a named field: the number of its name, and that of its type.
fn put_field(t: &[u8], words: &mut Words<'_>) -> Option<()>
    ensures { Writes (some field_words ⊛ field t.now) words.old result words.new }
{
    let e = tokens::find(t, 0, b':')?;
    let next = e + 1;
    if tokens::find(t, next, b':').is_some() {
        return None;
    }
    put_number(&t[..e], words)?;
    put_number(&t[next..], words)
}

// Writes an item of a list.
#[tactic(auto, using(crate::proofs::values::Laws::writes_none, crate::proofs::values::Laws::word_none, crate::proofs::values::Laws::word_some), unfolding(crate::specs::Items::item))]
fn put_item(list: ListOf, t: &[u8], words: &mut Words<'_>) -> Option<()>
    ensures { Writes (item (list_number list) t.now) words.old result words.new }
{
    match list {
        ListOf::Numbers => put_number(t, words),
        ListOf::Fields => put_field(t, words),
        ListOf::Patterns => words.push(read_pattern_binding(t)?),
    }
}

// Writes the items that stand between commas. No `split`, and one call of `put_item`: a byte of a long list took 7 percent longer with
// `split`, and 21 with a second call for the last item.
fn put_items(list: ListOf, t: &[u8], words: &mut Words<'_>) -> Option<()>
    ensures { Writes (items (list_number list) (split (eqb 44) t.now)) words.old result words.new }
{
    let mut i = 0;
    loop {
        let e = tokens::end_of(t, i, b',');
        put_item(list, &t[i..e], words)?;
        if e == t.len() {
            return Some(());
        }
        i = e + 1;
    }
}

// Writes a list, of no items where there is no sort for them.
#[tactic(auto, unfolding(crate::specs::Items::list_words))]
pub fn put_list(list: Option<ListOf>, t: &[u8], words: &mut Words<'_>) -> Option<()>
    ensures { Writes (list_words (sort_number list) t.now) words.old result words.new }
{
    if tokens::equal(t, b"-") {
        return Some(());
    }
    let list = list?;
    put_items(list, t, words)
}
