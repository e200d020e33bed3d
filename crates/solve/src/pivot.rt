// The search for the pivot of a column: in the rows up to the last that is not zero, or, where few are expected to be, with a list of them.
ghost use Rattle.std.specs.Prelude.{◌≡◌, ℕ, ◌+◌, ◌-◌, ◌*◌, ◌≤◌, ◌<◌, length, Float};
ghost use Rattle.numbers.specs.Limits.{most_unknowns};
ghost use Rattle.num.specs.Floats.{nought};
ghost use Rattle.loops.specs.Loop.{turns};
ghost use Rattle.num.specs.Lists.{«at»};
ghost use Rattle.solve.specs.Solve.{row_start, larger, index_of_next_abs};
ghost use Rattle.solve.specs.Inner.{Empty, Rows, Lists, unsigned_of, pick, first_of};

use super::rows;

// What a search finds: the pivot's row, and how many rows after row k it has listed.
// kept as a count beside the list: nothing here allocates, and the list is the caller's 48 bytes.
#[derive(Clone, Copy, Debug, PartialEq, Eq)]
pub struct Found {
    pub row: usize,
    pub count: usize,
}

// The largest absolute entry so far, and its row.
#[derive(Clone, Copy, Debug, PartialEq)]
struct Best {
    size: f64,
    row: usize,
}

impl Best {
    ghost use Rattle.std.specs.Prelude.{◌≡◌, ℕ, Float};
    ghost use Rattle.solve.specs.Inner.{unsigned_of, pick, first_of};

    // The larger of the best so far and the entry x of row r; the best so far on a tie.
    fn or(self, x: f64, r: usize) -> Best
        ensures { ◌≡◌ {A = Float × ℕ} (result.size, result.row) (pick r (unsigned_of x) (self.size, self.row)) }
    {
        let size = unsigned(x);
        if self.size < size {
            return Best { size, row: r };
        }
        self
    }

    // The row of the larger of two, the earlier row on a tie.
    fn first(self, other: Best) -> usize
        ensures { result ≡ first_of (self.size, self.row) (other.size, other.row) }
    {
        if self.size < other.size {
            return other.row;
        }
        if other.size < self.size {
            return self.row;
        }
        self.row.min(other.row)
    }
}

// The end of the rows, from row k on, that are not zero in column k; past row k at least.
pub fn reach(m: &[f64], n: usize, k: usize) -> usize
    requires { (k < n) × (n ≤ most_unknowns) × (n * (n + 1) ≤ length m.now) }
    ensures { (k < result) × (result ≤ n) × Empty n k result m.now }
{
    for r in (k + 1..n).rev() {
        if entry(m, n, k, r) != 0.0 {
            return r + 1;
        }
    }
    k + 1
}

// The row with the largest absolute entry in column k, among the rows from k up to `end`. Two searches, of every other row each, do not wait for each other's comparisons.
// kept as two for speed: in one search each comparison waits for the one before.
pub fn next_abs(m: &[f64], n: usize, k: usize, end: usize) -> usize
    requires { (k < end) × (end ≤ n) × (n ≤ most_unknowns) × (n * (n + 1) ≤ length m.now) }
    ensures { (result ≡ (turns (end - k) (larger (row_start n) k m.now) (nought, k)).1) × (result < end) }
{
    let mut best = Best { size: 0.0, row: k };
    let mut other = best;
    for i in 0..(end - k) / 2 {
        let r = k + 2 * i;
        best = best.or(entry(m, n, k, r), r);
        other = other.or(entry(m, n, k, r + 1), r + 1);
    }
    if (end - k) % 2 == 1 {
        best = best.or(entry(m, n, k, end - 1), end - 1);
    }
    best.first(other)
}

// The entry of row r in column k.
fn entry(m: &[f64], n: usize, k: usize, r: usize) -> f64
    requires { (k < n) × (r < n) × (n ≤ most_unknowns) × (n * (n + 1) ≤ length m.now) }
    ensures { result ≡ at m.now (row_start n r + k) }
{
    m[rows::row_start(n, r) + k]
}

// The row with the largest absolute entry in column k, among the rows from k on. The rows after row k that are not zero there are listed in `list`, in rising order.
pub fn search(m: &[f64], list: &mut [u8], n: usize, k: usize) -> Found
    requires { (k < n) × (n ≤ most_unknowns) × (n * (n + 1) ≤ length m.now) × (most_unknowns ≤ length list.old) }
    ensures { (result.row ≡ index_of_next_abs (row_start n) n k m.now) × (result.row < n) × (result.count ≤ most_unknowns) × Rows n result.count list.new × Lists n k n result.count list.new m.now }
{
    let mut best = Best { size: 0.0, row: k }.or(entry(m, n, k, k), k);
    let mut count = 0;
    for r in k + 1..n {
        let x = entry(m, n, k, r);
        if x != 0.0 {
            best = best.or(x, r);
            list[count] = r as u8;
            count += 1;
        }
    }
    Found {
        row: best.row,
        count,
    }
}

// x without its sign; a zero keeps it, which no comparison sees.
fn unsigned(x: f64) -> f64
    ensures { result ≡ unsigned_of x }
{
    if x < 0.0 { -x } else { x }
}
