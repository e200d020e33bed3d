// Back substitution in an eliminated matrix.
ghost use Rattle.std.specs.Prelude.{◌≡◌, true, ◌&&◌, ◌+◌, ◌-◌, ◌*◌, ◌≤◌, ◌<◌, length};
ghost use Rattle.std.specs.Float.Ieee.{eq};
ghost use Rattle.numbers.specs.Limits.{most_unknowns};
ghost use Rattle.num.specs.Floats.{nought};
ghost use Rattle.loops.specs.Loop.{turns};
ghost use Rattle.num.specs.Lists.{«at»};
ghost use Rattle.solve.specs.Solve.{row_start, add_one, dot as dotOf, unknown as unknownOf, last_unknown, substituted};
ghost use Rattle.solve.specs.Inner.{AllFinite, four_more};

use super::rows;

// The unknowns, the last one first; `tame` while each is finite.
pub fn substitute(m: &[f64], x: &mut [f64], n: usize)
    requires { (1 ≤ n) × (n ≤ most_unknowns) × (n * (n + 1) ≤ length m.now) × (length x.old ≡ n) }
    ensures { x.new ≡ substituted (row_start n) n m.now }
{
    x[0] = 0.0;
    let mut next = last_unknown(m, n);
    let mut tame = true;
    x[n - 1] = next;
    for i in (1..n - 1).rev() {
        next = unknown(m, x, n, i, next, tame);
        x[i] = next;
        tame &= num::finite(next);
    }
}

// The last unknown, 0.0 where it is not finite.
fn last_unknown(m: &[f64], n: usize) -> f64
    requires { (1 ≤ n) × (n ≤ most_unknowns) × (n * (n + 1) ≤ length m.now) }
    ensures { result ≡ last_unknown (row_start n) n m.now }
{
    let l = n - 1;
    let start = rows::row_start(n, l);
    let a = start + n;
    let b = start + l;
    let q = m[a] / m[b];
    if num::finite(q) { q } else { 0.0 }
}

// Unknown i, from the unknowns after it, of which `next` is the first; `tame` only if all of them are finite.
fn unknown(m: &[f64], x: &[f64], n: usize, i: usize, next: f64, tame: bool) -> f64
    requires { (i + 1 < n) × (next ≡ at x.now (i + 1)) × (n ≤ most_unknowns) × (n * (n + 1) ≤ length m.now) × (length x.now ≡ n) × (tame ≡ true → AllFinite (i + 1) n x.now) }
    ensures { result ≡ unknownOf (row_start n) n m.now x.now i }
{
    let start = rows::row_start(n, i);
    let s = dot(m, x, n, i, next, tame);
    let a = start + n;
    let b = start + i;
    (m[a] - s) / m[b]
}

// The sum of the entries of row i after the diagonal times their unknowns, in rising order. The first unknown comes by value, since it was stored last.
fn dot(m: &[f64], x: &[f64], n: usize, i: usize, next: f64, tame: bool) -> f64
    requires { (i + 1 < n) × (next ≡ at x.now (i + 1)) × (n ≤ most_unknowns) × (n * (n + 1) ≤ length m.now) × (length x.now ≡ n) × (tame ≡ true → AllFinite (i + 1) n x.now) }
    ensures { result ≡ dotOf (row_start n) n m.now x.now i }
{
    let first = rows::row_start(n, i) + (i + 1);
    let s = 0.0 + m[first] * next;
    if tame {
        return sparse_rest(m, x, n, i, s);
    }
    rest(m, x, n, i, 1, s)
}

// The sum where each unknown is finite: an entry that is zero adds nothing then. `first` is its first term; four zeros at a time are passed over.
fn sparse_rest(m: &[f64], x: &[f64], n: usize, i: usize, first: f64) -> f64
    requires { (i + 1 < n) × (n ≤ most_unknowns) × (n * (n + 1) ≤ length m.now) × (length x.now ≡ n) × AllFinite (i + 1) n x.now × (first ≡ turns 1 (add_one (row_start n) m.now x.now i) nought) }
    ensures { result ≡ dotOf (row_start n) n m.now x.now i }
{
    let start = rows::row_start(n, i);
    let mut s = first;
    let fours = (n - (i + 2)) / 4;
    for q in 0..fours {
        let column = i + 1 + (1 + 4 * q);
        let at = start + column;
        if !four_zeros(m, at) {
            s = four_more(m, x, at, column, s);
        }
    }
    rest(m, x, n, i, 1 + 4 * fours, s)
}

// The sum from term `from` on, `sum` being that of the terms before it.
fn rest(m: &[f64], x: &[f64], n: usize, i: usize, from: usize, sum: f64) -> f64
    requires { (i + 1 < n) × (n ≤ most_unknowns) × (n * (n + 1) ≤ length m.now) × (length x.now ≡ n) × (from ≤ n - (i + 1)) × (sum ≡ turns from (add_one (row_start n) m.now x.now i) nought) }
    ensures { result ≡ dotOf (row_start n) n m.now x.now i }
{
    let start = rows::row_start(n, i);
    let mut s = sum;
    for j in from..n - (i + 1) {
        let c = i + 1 + j;
        let at = start + c;
        s = s + m[at] * x[c];
    }
    s
}

// kept as four written out, not `all`: an early end would be a jump at each entry.
// Whether the four entries from `at` on are zeros, of either sign.
fn four_zeros(m: &[f64], a: usize) -> bool
    requires { a + 4 ≤ length m.now }
    ensures { result ≡ (eq (at m.now a) nought && eq (at m.now (a + 1)) nought && eq (at m.now (a + 2)) nought && eq (at m.now (a + 3)) nought) }
{
    (m[a] == 0.0) & (m[a + 1] == 0.0) & (m[a + 2] == 0.0) & (m[a + 3] == 0.0)
}

// The sum s and the four terms from `at` on, with the unknowns from `c` on.
fn four_more(m: &[f64], x: &[f64], a: usize, c: usize, s: f64) -> f64
    requires { (a + 4 ≤ length m.now) × (c + 4 ≤ length x.now) }
    ensures { result ≡ four_more m.now x.now a c s }
{
    s + m[a] * x[c] + m[a + 1] * x[c + 1] + m[a + 2] * x[c + 2] + m[a + 3] * x[c + 3]
}
