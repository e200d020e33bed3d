// A float as decimal digits that read back to the very float, tried from one digit on.
// Every function that another crate reaches is total. Programs print with it.
#![tactic(auto)]

mod limbs; // limbs.rt: a long number times and over a small one
mod scale; // scale.rt: a number of quarter steps of a float, cut to a whole number of decimal units
mod shortest; // shortest.rt: of the decimal numbers that read back to a float the one with the fewest digits

ghost use Rattle.std.specs.Prelude.{◌≡◌, ◌^◌, ◌<◌};
ghost use Rattle.decimal.specs.Decimal.{decimal_of, of_pattern, steps_of};

// A float in decimal: digits times 10^(place - 326) with its sign.
#[derive(Clone, Copy, Debug, PartialEq, Eq)]
pub enum Decimal {
    Nan,
    Infinite {
        minus: bool,
    },
    Finite {
        minus: bool,
        digits: u64,
        place: u64,
    },
}

// The bit of the sign, and that of a number's leading digit, which is not stored.
const SIGN: u64 = 1 << 63;

const LEADING: u64 = 1 << 52;

// The decimal number that stands for x: the first that reads back to x, tried from one digit on. That it reads back is the law reads_back.
pub fn decimal_of(x: f64) -> Decimal
    ensures { result ≡ decimal_of x }
{
    if x != x {
        return Decimal::Nan;
    }
    of_pattern(f64::to_bits(x))
}

// By the fields of the bits.
fn of_pattern(bits: u64) -> Decimal
    ensures { result ≡ of_pattern bits }
{
    let minus = SIGN <= bits;
    let field = bits % SIGN / LEADING;
    let low = bits % LEADING;
    if field == 2047 {
        return Decimal::Infinite { minus };
    }
    if field == 0 {
        if low == 0 {
            return Decimal::Finite {
                minus,
                digits: 0,
                place: 326,
            };
        }
        return of_steps(minus, 1, low, false);
    }
    // A power of two, with floats of a smaller exponent below it, is narrow.
    of_steps(minus, field, LEADING + low, (low == 0) & (1 < field))
}

// m steps of the floats whose exponent's field is b.
fn of_steps(minus: bool, b: u64, m: u64, narrow: bool) -> Decimal
    requires { (0 < b) × (b < 2047) × (0 < m) × (m < 2 ^ 53) }
    ensures { result ≡ steps_of minus b m narrow }
{
    let n = shortest::shortest(shortest::span_of(b, m, narrow), scale::place_of(b));
    Decimal::Finite {
        minus,
        digits: n.digits,
        place: n.place,
    }
}
