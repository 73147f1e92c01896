// The values of a row, from a text into words.
ghost use Rattle.std.specs.Prelude.{◌≡◌, ◌+◌, ◌-◌, ◌≤◌, ◌<◌, [], ◌∷◌, length};
ghost use Rattle.std.proofs.Math.Option.{some};
ghost use Rattle.plan.specs.Layout.{◌⊛◌, number_to, function_kind, bit};
ghost use Rattle.tokens.specs.Token.{hex_numeral, told};
ghost use Rattle.cells.specs.Words.{word};
ghost use Rattle.cells.specs.Value.{flag, function_word, threshold, cell, wide_words, integer, wide};
ghost use Rattle.cells.specs.Cell.{cell_number, wide_number};
ghost use Rattle.cells.specs.Writes.{Writes};

// What a value of one word is.
#[derive(Clone, Copy)]
pub enum Cell {
    Unused,
    Number,
    Field,
    Bit,
    Function,
    Threshold,
}

// What a value of four words is: an integer, or a value of one word with three zeros after it. No Option: neither is the lack of the other.
#[derive(Clone, Copy)]
pub enum WideCell {
    Integer,
    Narrow(Cell),
}

#[tactic(auto, unfolding(crate::specs::Value::cell, plan::specs::Layout::unused, tokens::specs::Token::told))]
fn read_unused(t: &[u8]) -> Option<u32>
    ensures { result ≡ told (cell 0 t.now) }
{
    tokens::equal(t, b"-").then_some(0)
}

// Comparisons one after the other, here and below: a `match` on byte strings does not prove (`rows::kinds`).
fn read_bit(t: &[u8]) -> Option<u32>
    ensures { result ≡ told (some flag ⊛ bit t.now) }
{
    if tokens::equal(t, b"0") {
        return Some(0);
    }
    tokens::equal(t, b"1").then_some(1)
}

// A number that is not above the most.
#[tactic(auto, using(crate::proofs::values::Laws::told_none, crate::proofs::values::Laws::told_some), unfolding(plan::specs::Layout::number_to, plan::specs::Layout::only, tokens::specs::Token::told))]
fn read_number_to(most: u32, t: &[u8]) -> Option<u32>
    ensures { result ≡ told (number_to most t.now) }
{
    tokens::read_number(t).filter(|n| *n <= most)
}

// A constructor or an extractor.
fn read_function_kind(t: &[u8]) -> Option<u32>
    ensures { result ≡ told (some function_word ⊛ function_kind t.now) }
{
    if tokens::equal(t, b"-") {
        return Some(0);
    }
    if tokens::equal(t, b"in") {
        return Some(1);
    }
    let n = tokens::read_number(t)?;
    Some(n + 2)
}

#[tactic(auto, unfolding(crate::specs::Value::threshold, tokens::specs::Token::told))]
fn read_threshold(t: &[u8]) -> Option<u32>
    ensures { result ≡ told (threshold t.now) }
{
    if tokens::equal(t, b"-") {
        return Some(256);
    }
    read_number_to(65535, t)
}

impl Cell {
    #[tactic(auto, unfolding(crate::specs::Value::cell))]
    fn read(self, t: &[u8]) -> Option<u32>
        ensures { result ≡ told (cell (cell_number self) t.now) }
    {
        match self {
            Cell::Unused => read_unused(t),
            Cell::Number => tokens::read_number(t),
            Cell::Field => read_number_to(255, t),
            Cell::Bit => read_bit(t),
            Cell::Function => read_function_kind(t),
            Cell::Threshold => read_threshold(t),
        }
    }
}

// Words on their way into a lent buffer, and the place of the next one. No `Vec`: the caller's memory is all that there is.
#[derive(Drop)]
pub struct Words<'a> {
    pub out: &'a mut [u32],
    pub at: usize,
}

impl<'a> Words<'a> {
    // Words from the start of a buffer.
    pub fn new(out: &'a mut [u32]) -> Words<'a>
        ensures buffer { result.out.ghost_name ≡ out.entry.ghost_name }
        ensures words { result.out.now ≡ out.old }
        ensures start { result.at ≡ 0 }
    {
        Words { out, at: 0 }
    }

    // Writes a word.
    #[tactic(auto, using(crate::proofs::values::Laws::writes_word, crate::proofs::values::Laws::writes_full))]
    pub fn push(&mut self, n: u32) -> Option<()>
        ensures { Writes (some (n ∷ [])) self.old result self.new }
    {
        if self.at < self.out.len() {
            self.out[self.at] = n;
            self.at += 1;
            return Some(());
        }
        None
    }

    // Writes a value of one word.
    #[tactic(auto, using(crate::proofs::values::Laws::writes_none, crate::proofs::values::Laws::word_none, crate::proofs::values::Laws::word_some))]
    pub fn push_cell(&mut self, sort: Cell, t: &[u8]) -> Option<()>
        ensures { Writes (word (cell (cell_number sort) t.now)) self.old result self.new }
    {
        let n = sort.read(t)?;
        self.push(n)
    }

    // Writes eight digits of an integer. No array of eight, which `read_hex` of at most eight could not ask for, and which each part of the
    // text would be made into first.
    #[tactic(auto, using(crate::proofs::values::Laws::writes_none, crate::proofs::values::Laws::word_none, crate::proofs::values::Laws::word_some))]
    fn push_hex(&mut self, t: &[u8]) -> Option<()>
        requires { length t.now ≤ 8 }
        ensures { Writes (word (hex_numeral 0 t.now)) self.old result self.new }
    {
        let n = tokens::read_hex(t)?;
        self.push(n)
    }

    // Writes an integer's value: four words, the low one first.
    #[tactic(auto, using(crate::proofs::values::Laws::writes_then, crate::proofs::values::Laws::writes_stop, crate::proofs::values::Laws::writes_none))]
    fn push_integer(&mut self, t: &[u8]) -> Option<()>
        ensures { Writes (some wide_words ⊛ integer t.now) self.old result self.new }
    {
        if t.len() != 32 {
            return None;
        }
        self.push_hex(&t[24..32])?;
        self.push_hex(&t[16..24])?;
        self.push_hex(&t[8..16])?;
        self.push_hex(&t[0..8])
    }

    // Writes a value of four words.
    #[tactic(auto, using(crate::proofs::values::Laws::writes_then, crate::proofs::values::Laws::writes_stop))]
    pub fn push_wide(&mut self, sort: WideCell, t: &[u8]) -> Option<()>
        ensures { Writes (some wide_words ⊛ wide (wide_number sort) t.now) self.old result self.new }
    {
        match sort {
            WideCell::Integer => self.push_integer(t),
            WideCell::Narrow(cell) => {
                self.push_cell(cell, t)?;
                self.push(0)?;
                self.push(0)?;
                self.push(0)
            }
        }
    }
}
