// The decimal digits of a number of 128 bits, found once: one division of the number by ten for each digit, the last one first. They are filled into
// an array from its end, and their number comes with them, and that of the divisions.
ghost use Rattle.std.specs.Prelude.{◌≡◌, ◌+◌, ◌/◌, ◌%◌, ◌<◌};
ghost use Rattle.text.specs.Decimal.{Finds};
ghost use Rattle.text.specs.Wide.{whole};

use super::number::Wide;

// What is left of a number, the digit that was taken off last, and how many divisions were made.
#[derive(Clone, Copy)]
struct Rest {
    left: Wide,
    digit: u8,
    divisions: usize,
}

// The digits stand from `first` on, up to the array's end. No number of 128 bits has more than 39 of them.
#[derive(Clone, Copy)]
pub struct Decimal {
    pub digits: [u8; 40],
    pub first: usize,
    pub count: usize,
    pub divisions: usize,
}

// One division of the number by ten: nothing else divides it, and nothing else raises the count. 2^64 is 10 * 1844674407370955161 + 6. So of what the
// upper half leaves, `over`, the lower half of the quotient has 1844674407370955161 * over, and a tenth of low + 6 * over. That sum may not fit, and
// so half of it is divided by five. Once the upper half is 0, a division is one of 64 bits: without this short way it took a fifth longer or more.
fn divide(n: Rest) -> Rest
    requires { n.divisions < 40 }
    ensures left { whole result.left ≡ whole n.left / 10 }
    ensures digit { result.digit ≡ whole n.left % 10 }
    ensures count { result.divisions ≡ n.divisions + 1 }
{
    let Wide { high, low } = n.left;
    let divisions = n.divisions + 1;
    if high == 0 {
        return Rest {
            left: Wide::from(low / 10),
            digit: (low % 10) as u8,
            divisions,
        };
    }
    let over = high % 10;
    let half = low / 2 + over * 3;
    Rest {
        left: Wide {
            high: high / 10,
            low: over * 1844674407370955161 + half / 5,
        },
        digit: (half % 5 * 2 + low % 2) as u8,
        divisions,
    }
}

// No `for`: it ends by what is left of the number.
pub fn find_decimal(n: Wide) -> Decimal
    ensures { Finds (whole n) result }
{
    let mut digits = [0; 40];
    let mut first = 40;
    let mut rest = Rest {
        left: n,
        digit: 0,
        divisions: 0,
    };
    loop {
        rest = divide(rest);
        first -= 1;
        digits[first] = b'0' + rest.digit;
        if rest.left.is_zero() {
            return Decimal {
                digits,
                first,
                count: 40 - first,
                divisions: rest.divisions,
            };
        }
    }
}
