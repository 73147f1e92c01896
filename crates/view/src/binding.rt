// Bindings: `Binding` of trie_again.rs 56, without the sources, which are the row's list.
ghost use Rattle.std.specs.Prelude.{◌≡◌, ◌+◌, ◌*◌};
ghost use Rattle.text.specs.Wide.{whole};
ghost use Rattle.cells.specs.Value.{value_of};
ghost use Rattle.rows.specs.View.{nth, wide_at, binding_of};
ghost use Rattle.view.specs.Kinds.{binding_by};
ghost use Rattle.view.specs.Told.{binding_told};

use super::{list_in, word_in};
use rows::kinds::BindingKind;
use text::number::Wide;

// `rows::kinds::BindingKind` is the kind alone, which is read before the values; a `Binding` is what it says with them.
#[derive(Clone, Copy)]
pub enum Binding {
    ConstBool { val: bool },
    ConstInt { ty: usize, val: Wide },
    ConstPrim { val: usize },
    Argument { index: usize },
    Extractor { term: usize },
    Constructor { term: usize },
    Iterator,
    MakeVariant { ty: usize, variant: usize },
    MakeStruct { ty: usize },
    MakeSome,
    MatchSome,
    MatchTuple { field: usize },
    MatchVariant { field: usize },
    ExtractStruct { field: usize },
}

// Two words, the low one first: the buffers have words of 32 bits.
pub fn half(low: u32, high: u32) -> u64
    ensures { result ≡ low + 4294967296 * high }
{
    u64::from(low) + 4294967296 * u64::from(high)
}

// The same of two words of a row.
pub fn half_in(row: &[u32], low: usize, high: usize) -> u64
    ensures { result ≡ nth row.now low + 4294967296 * nth row.now high }
{
    half(word_in(row, low), word_in(row, high))
}

// The integer of a row's four words from the word i on.
#[tactic(auto, using(crate::proofs::Made::halves))]
pub(crate) fn wide_in(row: &[u32], i: usize) -> Wide
    ensures { whole result ≡ value_of (wide_at row.now i) }
{
    let words = list_in(row, i);
    Wide {
        high: half_in(words, 2, 3),
        low: half_in(words, 0, 1),
    }
}

impl Binding {
    // The binding of a kind, of a row's words: a function of its own, whose arms prove without a lemma.
    fn of_kind(kind: BindingKind, row: &[u32]) -> Binding
        ensures { binding_told result ≡ binding_by kind row.now }
    {
        let n = word_in(row, 1) as usize;
        match kind {
            BindingKind::ConstBool => Binding::ConstBool { val: n == 1 },
            BindingKind::ConstInt => Binding::ConstInt {
                ty: n,
                val: wide_in(row, 2),
            },
            BindingKind::ConstPrim => Binding::ConstPrim { val: n },
            BindingKind::Argument => Binding::Argument { index: n },
            BindingKind::Extractor => Binding::Extractor { term: n },
            BindingKind::Constructor => Binding::Constructor { term: n },
            BindingKind::Iterator => Binding::Iterator,
            BindingKind::MakeVariant => Binding::MakeVariant {
                ty: n,
                variant: word_in(row, 2) as usize,
            },
            BindingKind::MakeStruct => Binding::MakeStruct { ty: n },
            BindingKind::MakeSome => Binding::MakeSome,
            BindingKind::MatchSome => Binding::MatchSome,
            BindingKind::MatchTuple => Binding::MatchTuple { field: n },
            BindingKind::MatchVariant => Binding::MatchVariant { field: n },
            BindingKind::ExtractStruct => Binding::ExtractStruct { field: n },
        }
    }
}

// The binding of a row's words. Those after the second are read only for the kinds that have them.
impl From<&[u32]> for Binding {
    ghost from_gives = { λ row binding. binding_told binding ≡ (binding_of row.now).binding };

    #[tactic(auto, using(crate::proofs::Made::binding_by_kind))]
    fn from(row: &[u32]) -> Binding {
        Binding::of_kind(BindingKind::from(word_in(row, 0)), row)
    }
}
