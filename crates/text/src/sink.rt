// The byte sink: a text is put into a lent buffer, from its start on. `end` is one more than the room; specs/Writes.antt says what it is
// that a text is put. Nothing is asked of a caller: any position, any room, any buffer. To measure a text, put it into a buffer of one byte.
ghost use Rattle.std.specs.Prelude.{◌≡◌, [], ◌∷◌, ◌+◌, ◌-◌, ◌*◌, ◌≤◌, ◌<◌, take, drop, IfSome, IfNone};
ghost use Rattle.std.proofs.lemmas.List.Edits.{sets};
ghost use Rattle.text.specs.Sink.{spaces};
ghost use Rattle.text.specs.Writes.{Writes};

// The bytes that have a place in a buffer are stored from a position on. These are functions of a buffer, not of a sink: their contracts and
// the invariant of the loop speak of the buffer alone.

fn store_byte(out: &mut [u8], at: usize, byte: u8)
    ensures { out.new ≡ sets out.old at (byte ∷ []) }
{
    if at < out.len() {
        out[at] = byte;
    }
}

// Most texts are a few bytes long: `copy_from_slice` took 2.7 times as long for a line of six of them. The bytes of `out` go by index: after an
// adapter of `iter_mut` (`zip`) nothing is known of them.
pub fn store(out: &mut [u8], at: usize, src: &[u8])
    ensures { out.new ≡ sets out.old at src.now }
{
    let n = src.len().min(out.len().saturating_sub(at));
    for (i, byte) in src[..n].iter().enumerate() {
        out[at + i] = *byte;
    }
}

#[tactic(auto, using(crate::proofs::Copies::part_stored, crate::proofs::Copies::taken_spaces, crate::specs::SinkLaws::length_spaces))]
fn store_spaces(out: &mut [u8], at: usize, n: usize)
    ensures { out.new ≡ sets out.old at (spaces n) }
{
    let first = at.min(out.len());
    let count = n.min(out.len() - first);
    out[first..first + count].fill(b' ');
}

// A text on its way into a lent buffer: the buffer, the position after the bytes put so far, one more than the room, and how many of the
// literals put so far are odd.
#[derive(Drop)]
pub struct Sink<'a> {
    pub out: &'a mut [u8],
    pub at: usize,
    pub end: usize,
    pub odd: usize,
}

impl<'a> Sink<'a> {
    // At the start of a buffer; `end` is one more than the room.
    pub fn new(out: &'a mut [u8], end: usize) -> Sink<'a>
        ensures buffer { result.out.ghost_name ≡ out.entry.ghost_name }
        ensures bytes { result.out.now ≡ out.old }
        ensures start { (result.at ≡ 0) × (result.odd ≡ 0) }
        ensures room { result.end ≡ end }
    {
        Sink {
            out,
            at: 0,
            end,
            odd: 0,
        }
    }

    // Goes n bytes on and answers where they begin; where there is no room for them, goes past the room.
    fn advance(&mut self, n: usize) -> Option<usize>
        ensures begins { IfSome result (λ at. (at ≡ self.old.at) × (self.old.at + n < self.old.end) × (self.new.at ≡ self.old.at + n)) }
        ensures past { IfNone result ((self.old.end ≤ self.old.at + n) × (self.new.at ≡ self.old.end)) }
        ensures same { (self.new.out ≡ self.old.out) × (self.new.end ≡ self.old.end) × (self.new.odd ≡ self.old.odd) }
    {
        let at = self.at;
        if n < self.end.saturating_sub(at) {
            self.at = at + n;
            return Some(at);
        }
        self.at = self.end;
        None
    }

    // The byte that goes past the room is stored where the buffer has a place for it, as callers have found it there.
    #[tactic(auto, using(crate::proofs::Copies::writes_held, crate::specs::Writes::writes_over))]
    pub fn put_byte(&mut self, byte: u8)
        ensures { Writes (byte ∷ []) self.old self.new }
    {
        if self.at < self.end {
            store_byte(self.out, self.at, byte);
            self.at += 1;
        } else {
            self.at = self.end;
        }
    }

    #[tactic(auto, using(crate::proofs::Copies::writes_stored, crate::proofs::Copies::writes_past))]
    pub fn put_bytes(&mut self, src: &[u8])
        ensures { Writes src.now self.old self.new }
    {
        if let Some(at) = self.advance(src.len()) {
            store(self.out, at, src);
        }
    }

    // The same, as they are put one by one: where there is no room for all, those up to the room's end are stored, and the one that goes past it.
    #[tactic(auto, using(crate::proofs::Copies::writes_short, crate::proofs::Copies::writes_all))]
    fn put_each(&mut self, src: &[u8])
        ensures { Writes src.now self.old self.new }
    {
        let n = src.len().min(self.end.saturating_sub(self.at));
        store(self.out, self.at, &src[..n]);
        if n < src.len() {
            self.at = self.end;
        } else {
            self.at += n;
        }
    }

    // The bytes of text from first up to last: those that there are.
    #[tactic(auto, using(crate::proofs::Copies::writes_no_part))]
    #[inline(always)]
    pub fn put_part(&mut self, text: &[u8], first: usize, last: usize)
        ensures { Writes (take (last - first) (drop first text.now)) self.old self.new }
    {
        let last = last.min(text.len());
        if first < last {
            self.put_each(&text[first..last]);
        }
    }

    #[tactic(auto, using(crate::proofs::Copies::writes_stored, crate::proofs::Copies::writes_past, crate::specs::SinkLaws::length_spaces))]
    pub fn put_spaces(&mut self, n: usize)
        ensures { Writes (spaces n) self.old self.new }
    {
        if let Some(at) = self.advance(n) {
            store_spaces(self.out, at, n);
        }
    }

    // Four spaces for each level of depth. As many as no number counts have no room in any buffer. `saturating_mul` was tried: that `end`
    // is a number of 64 bits, by which so many spaces have no room, is not known where it is not read.
    #[tactic(auto, using(crate::specs::Writes::writes_over, crate::specs::SinkLaws::length_spaces))]
    pub fn put_indent(&mut self, depth: usize)
        ensures { Writes (spaces (4 * depth)) self.old self.new }
    {
        match depth.checked_mul(4) {
            Some(n) => self.put_spaces(n),
            None => self.at = self.end,
        }
    }
}
