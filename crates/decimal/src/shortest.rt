// Of the decimal numbers next to a float, tried from one digit on and the nearer first, the first that reads back to it.
ghost use Rattle.std.specs.Prelude.{◌≡◌, ◌*◌, ◌^◌, ◌<◌, unwrap_or};
ghost use Rattle.decimal.specs.Shortest.{Fair, span_of, low_edge, least_of, most_of, inside_of, up_first, first_in, candidate_of, number_of};

use super::scale;
use super::scale::Cut;

// The decimal units that a float comes to, cut to a whole number, whether that is all of it, and the least and the most units that read back to it.
#[derive(Clone, Copy, Debug, PartialEq, Eq)]
pub struct Span {
    pub whole: u64,
    pub even: bool,
    pub least: u64,
    pub most: u64,
}

// digits times 10^(place - 326).
#[derive(Clone, Copy, Debug, PartialEq, Eq)]
pub struct Number {
    pub digits: u64,
    pub place: u64,
}

// The span of the float of m steps, for the exponent's field b; narrow says that the floats below it are half as far apart as those above.
pub fn span_of(b: u64, m: u64, narrow: bool) -> Span
    requires { (0 < b) × (b < 2047) × (0 < m) × (m < 2 ^ 53) }
    ensures { result ≡ span_of b m narrow }
{
    let middle = scale::cut_at(b, 4 * m);
    let below = scale::cut_at(b, low_edge(m, narrow));
    let above = scale::cut_at(b, 4 * m + 2);
    Span {
        whole: middle.whole,
        even: middle.even,
        least: least_of(below, m % 2 == 0),
        most: most_of(above, m % 2 == 0),
    }
}

// The number with the fewest digits, tried from one digit on; 0 has none.
pub fn shortest(s: Span, place: u64) -> Number
    requires { Fair s × (place < 1000) }
    ensures { result ≡ number_of s place 18 }
{
    let mut t: u64 = 1000000000000000000;
    for k in (1..19).rev() {
        if let Some(digits) = candidate(s, t)
            && 0 < digits
        {
            return Number {
                digits,
                place: place + k,
            };
        }
        t /= 10;
    }
    Number {
        digits: s.whole,
        place,
    }
}

// The lower edge of what reads back to m steps, in quarter steps: half a step below, or a quarter where the floats below are closer.
fn low_edge(m: u64, narrow: bool) -> u64
    requires { (0 < m) × (m < 2 ^ 53) }
    ensures { result ≡ low_edge m narrow }
{
    if narrow { 4 * m - 1 } else { 4 * m - 2 }
}

// The least whole number from the lower edge on; on the edge itself only what is even reads back.
fn least_of(c: Cut, even: bool) -> u64
    requires { c.whole < 2 ^ 63 }
    ensures { result ≡ least_of c even }
{
    if even && c.even { c.whole } else { c.whole + 1 }
}

// The most up to the upper edge.
fn most_of(c: Cut, even: bool) -> u64
    requires { 0 < c.whole }
    ensures { result ≡ most_of c even }
{
    if !even && c.even {
        c.whole - 1
    } else {
        c.whole
    }
}

// Of the two multiples of t next to the float, the one that reads back, the nearer first, over t.
fn candidate(s: Span, t: u64) -> Option<u64>
    requires { Fair s × (0 < t) × (t < 2 ^ 60) }
    ensures { unwrap_or result 0 ≡ candidate_of s t }
{
    let d = s.whole / t;
    if up_first(s, t) {
        first_in(s, t, d + 1, d)
    } else {
        first_in(s, t, d, d + 1)
    }
}

// Whether the multiple above is nearer; of two that are as near, the even one counts as nearer.
fn up_first(s: Span, t: u64) -> bool
    requires { Fair s × (0 < t) × (t < 2 ^ 60) }
    ensures { result ≡ up_first s t }
{
    let rest = s.whole % t;
    if 2 * rest == t {
        if s.even {
            return s.whole / t % 2 == 1;
        }
        return true;
    }
    t < 2 * rest
}

// p if p times t reads back, else q if q times t does.
fn first_in(s: Span, t: u64, p: u64, q: u64) -> Option<u64>
    requires { (p * t < 2 ^ 64) × (q * t < 2 ^ 64) }
    ensures { unwrap_or result 0 ≡ first_in s t p q }
{
    if inside(s, p * t) {
        Some(p)
    } else if inside(s, q * t) {
        Some(q)
    } else {
        None
    }
}

fn inside(s: Span, d: u64) -> bool
    ensures { result ≡ inside_of s d }
{
    s.least <= d && d <= s.most
}
