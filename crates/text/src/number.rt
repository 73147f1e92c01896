// Numbers put into the sink as digits, as Rust's `{}` and `{:x}` write them.
ghost use Rattle.std.specs.Prelude.{◌≡◌, eqb};
ghost use Rattle.text.specs.Writes.{Writes};
ghost use Rattle.text.specs.Digits.{decimal, hexadecimal, signed};
ghost use Rattle.text.specs.Wide.{whole};

use super::decimal::find_decimal;
use super::digits::Digits;
use super::sink::Sink;

// A number of 128 bits in two halves: the form that document 01 gives Rust's i128, and so no u128.
#[derive(Clone, Copy, PartialEq, Eq)]
pub struct Wide {
    pub high: u64,
    pub low: u64,
}

// A number of 64 bits.
impl From<u64> for Wide {
    ghost from_gives = { λ n wide. whole wide ≡ n };

    fn from(n: u64) -> Wide {
        Wide { high: 0, low: n }
    }
}

impl Wide {
    pub(super) fn is_zero(self) -> bool
        ensures { result ≡ eqb (whole self) 0 }
    {
        self.high == 0 && self.low == 0
    }
}

impl Sink<'_> {
    pub fn put_decimal(&mut self, n: u64)
        ensures { Writes (decimal n) self.old self.new }
    {
        let mut digits = Digits::new();
        digits.fill_decimal(n);
        self.put_bytes(digits.as_bytes());
    }

    // The hexadecimal digits, with no zeros in front.
    pub fn put_hex(&mut self, n: Wide)
        ensures { Writes (hexadecimal (whole n)) self.old self.new }
    {
        let mut digits = Digits::new();
        if n.high == 0 {
            digits.fill_digits::<16>(n.low);
        } else {
            digits.fill_padded::<16, 16>(n.low);
            digits.fill_digits::<16>(n.high);
        }
        self.put_bytes(digits.as_bytes());
    }

    pub fn put_decimal_wide(&mut self, n: Wide)
        ensures { Writes (decimal (whole n)) self.old self.new }
    {
        let found = find_decimal(n);
        self.put_bytes(&found.digits[found.first..]);
    }

    // The two's complement n of 128 bits as a signed decimal.
    #[tactic(auto, using(crate::proofs::Signs::writes_plus, crate::proofs::Signs::writes_minus_high, crate::proofs::Signs::writes_minus_low))]
    pub fn put_signed(&mut self, n: Wide)
        ensures { Writes (signed 128 (whole n)) self.old self.new }
    {
        if n.high < 9223372036854775808 {
            return self.put_decimal_wide(n);
        }
        self.put_byte(b'-');
        if n.low == 0 {
            return self.put_decimal_wide(Wide {
                high: u64::MAX - n.high + 1,
                low: 0,
            });
        }
        self.put_decimal_wide(Wide {
            high: u64::MAX - n.high,
            low: u64::MAX - n.low + 1,
        });
    }
}
