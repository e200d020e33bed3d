// The leading digits of a long number, as many as a float keeps and two more, the lowest of them set where anything is left below.
ghost use Rattle.std.specs.Prelude.{◌≡◌, ◌/◌, ◌%◌, ◌^◌, ◌<◌, ◌≤◌, length, take, ◌==◌};
ghost use Rattle.numbers.specs.Limits.{sum_limbs};
ghost use Rattle.exact.specs.Limbs.{value};
ghost use Rattle.mean.specs.Leading.{Leads, Top, dropped_of, marked};

use numbers::limit::SUM_LIMBS;

// Limbs below this one do not decide how many digits are dropped.
const LOW: usize = 18;

// The unit of floats, 2^-1074, is 2^1074 units of a sum; two digits more are kept below it.
const UNIT: u64 = 1072;

// A number with so many digits has all that a float keeps, and none to drop.
const FULL: u64 = 1127;

// The digits word, of which the lowest stands at the place 1072 + places.
#[derive(Clone, Copy, Debug, PartialEq, Eq)]
pub struct Digits {
    pub places: u64,
    pub word: u64,
}

// The digits of l that a float keeps. even says that nothing is left below l itself.
pub fn leading(l: &[u64], even: bool) -> Digits
    requires { length l.now ≡ sum_limbs }
    ensures { Leads (value l.now) even result.places result.word }
{
    let places = dropped(l);
    let at = (UNIT + places) as usize;
    let clear = even && clear_below(l, at);
    Digits {
        places,
        word: mark(clear, window(l, at)),
    }
}

// How many digits above the lowest of a float are dropped.
fn dropped(l: &[u64]) -> u64
    requires { length l.now ≡ sum_limbs }
    ensures { (result ≡ dropped_of (value l.now)) × (result ≤ 3097) }
{
    let h = top(l);
    let digits = 64 * (h as u64) + 64 - u64::leading_zeros(l[h]) as u64;
    if FULL < digits { digits - FULL } else { 0 }
}

// The place of the topmost limb that is not 0; limbs below 17 do not decide.
fn top(l: &[u64]) -> usize
    requires { length l.now ≡ sum_limbs }
    ensures { Top l.now result }
{
    for h in (LOW..SUM_LIMBS).rev() {
        if l[h] != 0 {
            return h;
        }
    }
    LOW - 1
}

// The digits from the place p on, where they are a word.
fn window(l: &[u64], p: usize) -> u64
    requires { (p < 2 ^ 32) × (value l.now / 2 ^ p < 2 ^ 63) }
    ensures { result ≡ value l.now / 2 ^ p }
{
    let i = p / 64;
    let s = (p % 64) as u64;
    let low = exact::limb(l, i) >> s;
    let high = exact::limb(l, i + 1) << (63 - s);
    low + high * 2
}

// Whether no digit below the place p is set.
fn clear_below(l: &[u64], p: usize) -> bool
    requires { p / 64 < length l.now }
    ensures { result ≡ (value l.now % 2 ^ p == 0) }
{
    let i = p / 64;
    let s = (p % 64) as u64;
    blank(l, i) && exact::limb(l, i) % (1 << s) == 0
}

// Whether the n lowest limbs are 0.
fn blank(l: &[u64], n: usize) -> bool
    requires { n ≤ length l.now }
    ensures { result ≡ (value (take n l.now) == 0) }
{
    l[..n].iter().all(|x| *x == 0)
}

// w, with its lowest digit set unless all below it is clear.
fn mark(clear: bool, w: u64) -> u64
    ensures { result ≡ marked clear w }
{
    if clear { w } else { w / 2 * 2 + 1 }
}
