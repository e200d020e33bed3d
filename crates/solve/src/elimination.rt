// Elimination, column after column. A row is named by where it starts, an entry by its place in the buffer.
ghost use Rattle.std.specs.Prelude.{◌≡◌, Bool, List, ◌+◌, ◌-◌, ◌*◌, ◌≤◌, ◌<◌, length, Float};
ghost use Rattle.numbers.specs.Limits.{most_unknowns};
ghost use Rattle.loops.specs.Loop.{turns};
ghost use Rattle.solve.specs.Solve.{row_start, swapped, reduced, clear_one, column as columnOf, eliminated};
ghost use Rattle.solve.specs.Inner.{Rows, clear_listed};

use super::{pivot, rows, update};

// Columns 1 to n - 2, until a pivot is zero.
pub fn eliminate(m: &mut [f64], n: usize)
    requires { (n ≤ most_unknowns) × (n * (n + 1) ≤ length m.old) }
    ensures { m.new ≡ eliminated n m.old }
{
    for k in 1..n.saturating_sub(1) {
        if !column(m, n, k) {
            return;
        }
    }
}

// Brings the pivot of column k to row k and clears the column below it. Answers whether elimination goes on: not where the pivot is zero.
// A zero halfway down says that the column has few entries; either way it comes to the same.
// Compiled by itself, its inner loops have the registers.
#[inline(never)]
fn column(m: &mut [f64], n: usize, k: usize) -> bool
    requires { (k < n) × (n ≤ most_unknowns) × (n * (n + 1) ≤ length m.old) }
    ensures { ◌≡◌ {A = Bool × List Float} (result, m.new) (columnOf (row_start n) n k m.old) }
{
    let at = rows::row_start(n, (k + n) / 2) + k;
    if m[at] == 0.0 {
        return sparse_column(m, n, k);
    }
    full_column(m, n, k)
}

// The same, row after row.
// kept beside `sparse_column`: the two searches answer different things, an end of rows and a list.
fn full_column(m: &mut [f64], n: usize, k: usize) -> bool
    requires { (k < n) × (n ≤ most_unknowns) × (n * (n + 1) ≤ length m.old) }
    ensures { ◌≡◌ {A = Bool × List Float} (result, m.new) (columnOf (row_start n) n k m.old) }
{
    let end = pivot::reach(m, n, k);
    let p = rows::row_start(n, pivot::next_abs(m, n, k, end));
    let at = p + k;
    if m[at] == 0.0 {
        return false;
    }
    let to = rows::row_start(n, k);
    swap_rows(m, p, to, n + 1);
    clear_below(m, n, k, end);
    true
}

// The same, with a list of the rows that are not zero in the column, so that the others are looked at once.
fn sparse_column(m: &mut [f64], n: usize, k: usize) -> bool
    requires { (k < n) × (n ≤ most_unknowns) × (n * (n + 1) ≤ length m.old) }
    ensures { ◌≡◌ {A = Bool × List Float} (result, m.new) (columnOf (row_start n) n k m.old) }
{
    let mut list = [0; numbers::limit::UNKNOWNS];
    let found = pivot::search(m, &mut list, n, k);
    let p = rows::row_start(n, found.row);
    let at = p + k;
    if m[at] == 0.0 {
        return false;
    }
    let to = rows::row_start(n, k);
    swap_rows(m, p, to, n + 1);
    clear_listed(m, &list[..found.count], n, k);
    true
}

// The `len` entries from `a` on and those from `b` on change places.
fn swap_rows(m: &mut [f64], a: usize, b: usize, len: usize)
    requires { (a + len ≤ length m.old) × (b + len ≤ length m.old) }
    ensures { m.new ≡ swapped a b len m.old }
{
    if a == b {
        return;
    }
    // kept by hand: `m.swap` compares the places at each entry, and the loop is not done in pairs then.
    for i in 0..len {
        let x = m[a + i];
        m[a + i] = m[b + i];
        m[b + i] = x;
    }
}

// Clears column k below row k, in the rows up to `end`.
fn clear_below(m: &mut [f64], n: usize, k: usize, end: usize)
    requires { (k < end) × (end ≤ n) × (n ≤ most_unknowns) × (n * (n + 1) ≤ length m.old) }
    ensures { m.new ≡ turns (end - (k + 1)) (clear_one (row_start n) n k) m.old }
{
    let from = rows::row_start(n, k) + k;
    let len = n + 1 - k;
    for r in k + 1..end {
        reduce::<false>(m, from, rows::row_start(n, r) + k, len);
    }
}

// Clears column k in the rows of the list.
fn clear_listed(m: &mut [f64], list: &[u8], n: usize, k: usize)
    requires { (k < n) × (n ≤ most_unknowns) × (n * (n + 1) ≤ length m.old) × Rows n (length list.now) list.now }
    ensures { m.new ≡ turns (length list.now) (clear_listed n k list.now) m.old }
{
    let from = rows::row_start(n, k) + k;
    let len = n + 1 - k;
    for r in list {
        reduce::<true>(m, from, rows::row_start(n, *r as usize) + k, len);
    }
}

// Clears the entries from `to` on by those from `from` on, the pivot; `LISTED` says that one loop is enough.
// Each of the two callers has its own, which is compiled into it: there what does not change from row to row is worked out once.
fn reduce<const LISTED: bool>(m: &mut [f64], from: usize, to: usize, len: usize)
    requires { (0 < len) × (from + len ≤ length m.old) × (to + len ≤ length m.old) }
    ensures { m.new ≡ reduced from to len m.old }
{
    if m[to] == 0.0 {
        return;
    }
    let ratio = m[to] / m[from];
    if LISTED {
        update::less_each(m, from, to, len, ratio);
    } else {
        update::less_scaled(m, from, to, len, ratio);
    }
}
