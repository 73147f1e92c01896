// A plan in the reader's buffers, with accessors: `Plan` of the definitions is what they hold (specs/Buffers.antt).
// Nothing is asked of the buffers: what is not there reads as 0.
ghost use Rattle.std.specs.Prelude.{◌≡◌, ℕ, ◌+◌, ◌<◌, eqb, ltb, List, [], length, get_or, drop};
ghost use Rattle.plan.specs.Lookup.{type_at, term_at, fields_of, field_count};
ghost use Rattle.rows.specs.View.{nth, flagged, function_of, type_of, variant_of, term_of, binding_of};
ghost use Rattle.rows.specs.Kinds.{block_kind};
ghost use Rattle.layout.specs.View.{cut, text_of};
ghost use Rattle.view.specs.Told.{function_told, type_told, variant_told, term_told, binding_told, control_flow_told, control_flow_of, constraint_told, constraint_of};
ghost use Rattle.view.specs.Buffers.{words_of, rows_of, variants_in, env_of, type_by_row, IfDeclared};
ghost use Rattle.view.specs.Tables.{table_rows};

use super::binding::Binding;
use super::block::{Constraint, ControlFlow};
use super::environment::{FunctionKind, Term, TypeData, Variant};
use super::heads::{TYPE_HEAD, VARIANT_HEAD};
use super::tables::{TERMS, TYPES};
use super::{bound, list_in, next_bound, part, word_in};
use literal::builtin_type::BuiltinType;
use rows::kinds::BlockKind;
use std::ops::Range;

// `bytes` is the plan itself, `words` has the words of all rows, `rows` where each row's words end, `tables` where each table's rows
// end, and `index` where the variants of each type stand (`variants`); before they are indexed it is empty. A plan and a sink stay two
// parameters of those who write: a plan is only read, and of one value each contract would have to say that the plan in it stays.
#[derive(Clone, Copy)]
pub struct Plan<'p, 'w, 'b> {
    pub bytes: &'p [u8],
    pub words: &'w [u32],
    pub rows: &'b [u32],
    pub tables: &'b [u32],
    pub index: &'b [u32],
}

impl<'p, 'w, 'b> Plan<'p, 'w, 'b> {
    // The words of row r, for those who read several of them.
    pub fn row(&self, r: usize) -> &'w [u32]
        ensures { result.now ≡ words_of self.now r }
    {
        part(self.words, self.rows, r)
    }

    // The word k of row r.
    pub fn word(&self, r: usize, k: usize) -> usize
        ensures { result ≡ nth (words_of self.now r) k }
    {
        self.cell(r, k) as usize
    }

    // The same as it is stored.
    pub fn cell(&self, r: usize, k: usize) -> u32
        ensures { result ≡ nth (words_of self.now r) k }
    {
        word_in(self.row(r), k)
    }

    // Whether the word k of row r is 1.
    pub fn flag(&self, r: usize, k: usize) -> bool
        ensures { result ≡ flagged (nth (words_of self.now r) k) }
    {
        self.cell(r, k) == 1
    }

    // The list of row r, which stands after `header` words.
    pub fn list(&self, r: usize, header: usize) -> &'w [u32]
        ensures { result.now ≡ drop header (words_of self.now r) }
    {
        list_in(self.row(r), header)
    }

    // The text of row r, whose words are its start and its end in the plan.
    #[tactic(auto, using(crate::proofs::Laws::part_found), unfolding(layout::specs::View::text_of))]
    pub fn text_at(&self, r: usize) -> &'p [u8]
        ensures { result.now ≡ text_of self.now.bytes.now (words_of self.now r) }
    {
        let row = self.row(r);
        let to = (word_in(row, 1) as usize).min(self.bytes.len());
        self.bytes.get(word_in(row, 0) as usize..to).unwrap_or(&[])
    }

    // How many rows table t has.
    #[tactic(auto, using(crate::proofs::Laws::table_length))]
    pub fn row_count(&self, t: usize) -> usize
        ensures own { (result ≡ length (rows_of self.now t)) × (result < 4294967296) }
        ensures any { (words rows : List ℕ) → result ≡ length (table_rows words rows self.now.tables.now t) }
    {
        self.end_row(t).saturating_sub(self.first_row(t))
    }

    // The number of row i of table t; where the table has no such row, a number that no row has. Callers pass the number on to accessors, for
    // which a row that is not there reads as no words, as in the definition.
    #[tactic(auto, using(crate::proofs::Plans::row_there, crate::proofs::Plans::row_none))]
    pub fn row_at(&self, t: usize, i: usize) -> usize
        ensures own { words_of self.now result ≡ get_or (rows_of self.now t) i [] }
        ensures any { (words : List ℕ) → let p = self.now in cut words p.rows.now result ≡ get_or (table_rows words p.rows.now p.tables.now t) i [] }
    {
        if self.row_count(t) <= i {
            return self.rows.len();
        }
        self.first_row(t) + i
    }

    // The number of the first row of table t, and one more than that of its last.
    pub fn first_row(&self, t: usize) -> usize
        ensures { (result ≡ get_or self.now.tables.now t 0) × (result < 4294967296) }
    {
        bound(self.tables, t)
    }

    pub fn end_row(&self, t: usize) -> usize
        ensures { (result ≡ get_or self.now.tables.now (t + 1) 0) × (result < 4294967296) }
    {
        next_bound(self.tables, t)
    }

    // The numbers of the rows of table t.
    pub fn row_range(&self, t: usize) -> Range<usize>
        ensures first { (result.start ≡ get_or self.now.tables.now t 0) × (result.start < 4294967296) }
        ensures end { (result.end ≡ get_or self.now.tables.now (t + 1) 0) × (result.end < 4294967296) }
    {
        self.first_row(t)..self.end_row(t)
    }

    // The row of the type n, unless it is a builtin one or there is none. No `then_some`, which would leave both clauses to be answered.
    #[tactic(auto, using(crate::proofs::Plans::builtin_data, crate::proofs::Plans::type_past, crate::proofs::Plans::type_there, crate::proofs::Plans::type_said))]
    pub fn type_row(&self, n: usize) -> Option<usize>
        ensures declared { IfDeclared self.now n result }
        ensures data { type_by_row self.now n result ≡ type_at (env_of self.now) n }
    {
        let i = n.checked_sub(BuiltinType::COUNT)?;
        if i < self.row_count(TYPES) {
            Some(self.row_at(TYPES, i))
        } else {
            None
        }
    }

    // Whether the term m returns many values.
    #[tactic(auto, using(crate::proofs::Plans::multi_is))]
    pub fn is_multi(&self, m: usize) -> bool
        ensures { result ≡ (term_at (env_of self.now) m).multi }
    {
        self.flag(self.row_at(TERMS, m), 3)
    }

    // How many variants of type n are indexed, and the row of variant k.
    pub fn variant_count(&self, n: usize) -> usize
        ensures { result ≡ length (variants_in self.now n) }
    {
        part(self.index, self.index, n).len()
    }

    pub fn variant_row(&self, n: usize, k: usize) -> usize
        ensures { result ≡ nth (variants_in self.now n) k }
    {
        word_in(part(self.index, self.index, n), k) as usize
    }

    // The binding of row r. This and the accessors of other rows are one line each over the conversion to the type that they give.
    pub fn binding_at(&self, r: usize) -> Binding
        ensures { binding_told result ≡ (binding_of (words_of self.now r)).binding }
    {
        Binding::from(self.row(r))
    }

    // The kind of row r of a block.
    pub fn block_kind(&self, r: usize) -> BlockKind
        ensures { result ≡ block_kind (nth (words_of self.now r) 1) }
    {
        BlockKind::from(self.cell(r, 1))
    }

    // Whether row r is a step, and no arm.
    #[tactic(auto, using(crate::proofs::Made::is_step_by_kind))]
    pub fn is_step(&self, r: usize) -> bool
        ensures { result ≡ ltb (nth (words_of self.now r) 1) 4 }
    {
        self.block_kind(r).is_step()
    }

    // Whether row r is a `return`.
    #[tactic(auto, using(crate::proofs::Made::is_return_by_kind))]
    pub fn is_return(&self, r: usize) -> bool
        ensures { result ≡ eqb (nth (words_of self.now r) 1) 3 }
    {
        self.block_kind(r) == BlockKind::Return
    }

    // What row r, a step, does.
    pub fn control_flow_at(&self, r: usize) -> ControlFlow
        ensures { control_flow_told result ≡ control_flow_of (words_of self.now r) }
    {
        ControlFlow::from(self.row(r))
    }

    // What row r, an arm, asks.
    pub fn constraint_at(&self, r: usize) -> Constraint
        ensures { constraint_told result ≡ constraint_of (words_of self.now r) }
    {
        Constraint::from(self.row(r))
    }

    // The function kind of word k of row r.
    pub fn function_kind_at(&self, r: usize, k: usize) -> FunctionKind
        ensures { function_told result ≡ function_of (nth (words_of self.now r) k) }
    {
        FunctionKind::from(self.cell(r, k))
    }

    // The type of row r; its fields are the list after five words.
    pub fn type_at(&self, r: usize) -> TypeData
        ensures { type_told result (drop 5 (words_of self.now r)) ≡ type_of (words_of self.now r) }
    {
        TypeData::from(self.row(r))
    }

    // The variant of row r; its fields are the list after three words.
    pub fn variant_at(&self, r: usize) -> Variant
        ensures { variant_told result (drop 3 (words_of self.now r)) ≡ variant_of (words_of self.now r) }
    {
        Variant::from(self.row(r))
    }

    // The term of row r; the types of its arguments are the list after eight words.
    pub fn term_at(&self, r: usize) -> Term
        ensures { term_told result (drop 8 (words_of self.now r)) ≡ term_of (words_of self.now r) }
    {
        Term::from(self.row(r))
    }

    // How many fields the type of row r has: none if it is no struct.
    #[tactic(auto, using(crate::proofs::Made::fields_numbered))]
    pub fn type_field_count(&self, r: usize) -> usize
        ensures { result ≡ field_count (fields_of (type_of (words_of self.now r))) }
    {
        match self.type_at(r) {
            TypeData::Struct(_, shape) => shape.field_count(self.list(r, TYPE_HEAD).len()),
            _ => 0,
        }
    }

    // How many fields the variant of row r has.
    #[tactic(auto, using(crate::proofs::Made::fields_numbered))]
    pub fn variant_field_count(&self, r: usize) -> usize
        ensures { result ≡ field_count (variant_of (words_of self.now r)).fields }
    {
        let shape = self.variant_at(r).shape;
        shape.field_count(self.list(r, VARIANT_HEAD).len())
    }
}
