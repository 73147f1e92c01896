// Tokens of a text: columns of a line, names, numbers.
#![tactic(auto)]

ghost use Rattle.std.specs.Prelude.{◌≡◌, true, false, ◌&&◌, ◌||◌, ◌+◌, ◌-◌, ◌*◌, ◌≤◌, ◌<◌, min, [], eqb, length, drop, get_or, ◌≢◌, IfNone, OnSome, IfSome};
ghost use Rattle.text.specs.Split.{split, same};
ghost use Rattle.plan.specs.Layout.{number, hex_digit, hex_digits, hex_from};
ghost use Rattle.tokens.specs.Token.{until, Columns, place, numeral, hex_value, hex_numeral, told};

// Where what stands from `from` on ends: at the first byte b, or at the end of s. No `position`: a list of short items took a fifth longer to
// read, and so it did by way of an Option. No slice in place of s and `from`: callers go on from the place in the whole text, and would add
// it to what a part of it gives.
#[tactic(auto, using(crate::proofs::Laws::until_end, crate::proofs::Laws::until_here, crate::proofs::Laws::until_next))]
pub fn end_of(s: &[u8], from: usize, b: u8) -> usize
    requires { from ≤ length s.now }
    ensures { (result ≡ from + until b (drop from s.now)) × (result ≤ length s.now) }
{
    for i in from..s.len() {
        if s[i] == b {
            return i;
        }
    }
    s.len()
}

// The place of the first byte b of s at or after from, if there is one.
pub fn find(s: &[u8], from: usize, b: u8) -> Option<usize>
    requires { from ≤ length s.now }
    ensures none { IfNone result (from + until b (drop from s.now) ≡ length s.now) }
    ensures place { IfSome result (λ i. (i ≡ from + until b (drop from s.now)) × (i < length s.now)) }
{
    let i = end_of(s, from, b);
    (i < s.len()).then_some(i)
}

// Whether b is one of the 16 bytes of s from i on. All are looked at, since a loop without a way out takes them at a time.
#[tactic(auto, using(crate::proofs::Laws::not_either, crate::proofs::Laws::part_at, crate::proofs::Laws::until_far))]
fn is_near(s: &[u8], i: usize, b: u8) -> bool
    requires { i + 16 ≤ length s.now }
    ensures { result ≡ false → until b (drop i s.now) ≡ 16 + until b (drop (i + 16) s.now) }
{
    let mut found = false;
    for c in &s[i..i + 16] {
        found |= *c == b;
    }
    found
}

// What `find` finds, where it may be far. No `for`: what is left is looked at from where the last whole 16 end, a place that with
// `chunks_exact` would be 16 times a count of chunks, and for the rest a length less its remainder: no plainer.
pub fn find_far(s: &[u8], from: usize, b: u8) -> Option<usize>
    requires { from ≤ length s.now }
    ensures none { IfNone result (from + until b (drop from s.now) ≡ length s.now) }
    ensures place { IfSome result (λ i. (i ≡ from + until b (drop from s.now)) × (i < length s.now)) }
{
    let mut i = from;
    while 16 <= s.len() - i {
        if is_near(s, i, b) {
            return find(s, i, b);
        }
        i += 16;
    }
    find(s, i, b)
}

// Whether two texts are the same, in the definition's word. Callers compare with a literal, which `==` would need as a slice.
#[tactic(auto, using(crate::proofs::Laws::same_text))]
pub fn equal(s: &[u8], t: &[u8]) -> bool
    ensures { result ≡ same s.now t.now }
{
    s == t
}

// A line that is cut at its spaces: where its first nine columns start, and where one more would, and how many there are, 10 for all
// above nine.
#[derive(Clone, Copy)]
pub struct Line<'a> {
    pub text: &'a [u8],
    starts: [usize; 10],
    pub count: usize,
    ghost columns: { Columns text.now starts },
}

impl<'a> Line<'a> {
    // At each byte the place after it is stored, and kept only if the byte is a space: a loop that does not branch on the bytes,
    // since no processor foresees where a short column ends. No `for`: the place moves on at each byte, the column at a space alone.
    #[tactic(auto, using(crate::proofs::Laws::cutting_last, crate::proofs::Laws::cutting_more))]
    pub fn cut(text: &'a [u8]) -> Line<'a>
        ensures text { result.text.now ≡ text.now }
        ensures count { result.count ≡ min 10 (length (split (eqb 32) text.now)) }
    {
        let mut starts = [0; 10];
        let mut k = 0;
        let mut i = 0;
        while k < 9 {
            let next = i + 1;
            let last = k + 1;
            starts[last] = next;
            if i == text.len() {
                return Line {
                    text,
                    starts,
                    count: last,
                };
            }
            k += usize::from(text[i] == b' ');
            i = next;
        }
        Line {
            text,
            starts,
            count: 10,
        }
    }

    // A line that is cut at its spaces, if it has n columns.
    pub fn of(text: &'a [u8], n: usize) -> Option<Line<'a>>
        requires { n < 10 }
        ensures other { IfNone result (length (split (eqb 32) text.now) ≢ n) }
        ensures count { OnSome result (length (split (eqb 32) text.now) ≡ n) }
        ensures text { IfSome result (λ l. l.text.now ≡ text.now) }
    {
        let line = Line::cut(text);
        (line.count == n).then_some(line)
    }

    // The column k.
    #[tactic(auto, using(crate::proofs::Laws::column_low, crate::proofs::Laws::column_high, crate::proofs::Laws::column_at))]
    pub fn column(&self, k: usize) -> &'a [u8]
        requires { (k < 9) × (k < length (split (eqb 32) self.now.text.now)) }
        ensures { result.now ≡ get_or (split (eqb 32) self.now.text.now) k [] }
    {
        let from = self.starts[k];
        let to = self.starts[k + 1] - 1;
        &self.text[from..to]
    }
}

// The number that a run of digits says, at most 65,536: no plan has so many rows, levels or values.
#[tactic(auto, using(crate::proofs::Laws::numeral_end, crate::proofs::Laws::numeral_low, crate::proofs::Laws::numeral_high, crate::proofs::Laws::numeral_next), unfolding(crate::specs::Token::told))]
fn read_digits(t: &[u8]) -> Option<u32>
    ensures { result ≡ told (numeral 0 t.now) }
{
    let mut n: u32 = 0;
    for c in t {
        if !c.is_ascii_digit() {
            return None;
        }
        n = (n * 10 + u32::from(*c - b'0')).min(65536);
    }
    Some(n)
}

// The number that a text says: digits, with no 0 before another.
#[tactic(auto, using(crate::proofs::Laws::number_none, crate::proofs::Laws::number_one, crate::proofs::Laws::number_zero, crate::proofs::Laws::number_more), unfolding(crate::specs::Token::told))]
pub fn read_number(t: &[u8]) -> Option<u32>
    ensures { result ≡ told (number t.now) }
{
    match t {
        [] => None,
        [b'0', _, ..] => None,
        _ => read_digits(t),
    }
}

// Whether a byte is a lower-case hexadecimal digit. No `matches!`: with it a row with an integer took 127 ns, so 92.
fn is_hex_digit(c: u8) -> bool
    ensures { result ≡ hex_digit c }
{
    (b'0' <= c) & (c <= b'9') | (b'a' <= c) & (c <= b'f')
}

// Whether all bytes of a text are such digits. All are looked at, as in `is_near`.
#[tactic(auto, using(crate::proofs::Laws::hex_digits_end, crate::proofs::Laws::hex_digits_next))]
fn is_hex(t: &[u8]) -> bool
    ensures { result ≡ hex_digits t.now }
{
    let mut hex = true;
    for c in t {
        hex &= is_hex_digit(*c);
    }
    hex
}

// What a hexadecimal digit says: its low four bits, with 9 more for a letter. No branch, since digits and letters come in no order
// that a processor foresees.
fn hex_value(c: u8) -> u32
    requires { hex_digit c ≡ true }
    ensures { (result ≡ hex_value c) × (result < 16) }
{
    let n = u32::from(c);
    n % 16 + n / 64 * 9
}

// The number that at most eight hexadecimal digits say.
#[tactic(auto, using(crate::proofs::Laws::hex_digit_at, crate::proofs::Laws::hex_from_end))]
fn hex_number(t: &[u8]) -> u32
    requires { (length t.now ≤ 8) × (hex_digits t.now ≡ true) }
    ensures { result ≡ hex_from 0 t.now }
{
    let mut n: u32 = 0;
    for c in t {
        n = n * 16 + hex_value(*c);
    }
    n
}

// The number that at most eight lower-case hexadecimal digits say.
#[tactic(auto, unfolding(crate::specs::Token::told, crate::specs::Token::hex_numeral))]
pub fn read_hex(t: &[u8]) -> Option<u32>
    requires { length t.now ≤ 8 }
    ensures { result ≡ told (hex_numeral 0 t.now) }
{
    is_hex(t).then(|| hex_number(t))
}
