// The decimal digits of numbers of 64 bits and the hexadecimal ones of 128, as Rust's `{}` and `{:x}` write them: filled into an array from its
// end, the last one first, and put as one text.
// A loop keeps the place of the next one in a local: as a field, which a byte that is stored might change, it cost a tenth more. So did a `for`
// over the places in reverse (`(first - K..first).rev()`); after an adapter of `iter_mut`, as its `rev`, nothing is known of the bytes.
ghost use Rattle.std.specs.Prelude.{◌≡◌, [], suc, ◌-◌, ◌/◌, ◌^◌, ◌≤◌, ◌<◌, ◌++◌, length};
ghost use Rattle.text.specs.Digits.{digits, digit, decimal};
ghost use Rattle.text.specs.DigitsLaws.{padded};

fn from_digit(d: u64) -> u8
    requires { d < 16 }
    ensures { result ≡ digit d }
{
    b"0123456789abcdef"[d as usize]
}

// An array whose bytes from `first` on are digits. A hexadecimal number of 128 bits has 32 of them.
#[derive(Drop)]
pub struct Digits {
    text: [u8; 40],
    first: usize,
    ghost inside: { (first ≤ 40) × (length text ≡ 40) },
}

impl Digits {
    ghost use Rattle.text.specs.Filled.{filled};

    // No digits yet.
    pub(super) fn new() -> Digits
        ensures filled { filled result ≡ [] }
        ensures place { result.first ≡ 40 }
    {
        Digits {
            text: [0; 40],
            first: 40,
        }
    }

    pub(super) fn as_bytes(&self) -> &[u8]
        ensures { result.now ≡ filled self.now }
    {
        &self.text[self.first..]
    }

    // Puts the last K digits of n to the base B, zeros in front included, before those that are there; the quotient is what is left.
    pub(super) fn fill_padded<const B: u64, const K: usize>(&mut self, n: u64) -> u64
        requires { (2 ≤ B) × (B ≤ 16) × (K ≤ self.old.first) }
        ensures filled { filled self.new ≡ padded B K n ++ filled self.old }
        ensures place { self.new.first ≡ self.old.first - K }
        ensures left { result ≡ n / B ^ K }
    {
        let first = self.first;
        let mut left = n;
        for i in 0..K {
            self.text[first - 1 - i] = from_digit(left % B);
            left /= B;
        }
        self.first = first - K;
        left
    }

    // Puts the digits of n to the base B before those that are there. No `for`: it ends by what is left of the number.
    pub(super) fn fill_digits<const B: u64>(&mut self, n: u64)
        requires { (2 ≤ B) × (B ≤ 16) × (1 ≤ self.old.first) × (n < B ^ self.old.first) }
        ensures { filled self.new ≡ digits B (suc n) n ++ filled self.old }
    {
        let mut place = self.first;
        let mut rest = n;
        while B <= rest {
            place -= 1;
            self.text[place] = from_digit(rest % B);
            rest /= B;
        }
        place -= 1;
        self.text[place] = from_digit(rest);
        self.first = place;
    }

    // The decimal digits of n, likewise, and no `for` either: four of them in a step, as long as there are more.
    pub(super) fn fill_decimal(&mut self, n: u64)
        requires { (1 ≤ self.old.first) × (n < 10 ^ self.old.first) }
        ensures { filled self.new ≡ decimal n ++ filled self.old }
    {
        let mut rest = n;
        while 10000 <= rest {
            rest = self.fill_padded::<10, 4>(rest);
        }
        self.fill_digits::<10>(rest);
    }
}
