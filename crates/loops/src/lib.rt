// Loops that every crate above stands on: copying, clearing, a row put into a buffer, and 48 numbers to work in. Their meaning is in specs/Loop.antt, the laws of loops in specs/Laws/Loop.antt.
// Every function here is total.
#![tactic(auto)]

ghost use Rattle.std.specs.Prelude.{◌≡◌, cond, length, replicate};
ghost use Rattle.numbers.specs.Limits.{most_unknowns};
ghost use Rattle.num.specs.Floats.{nought};
ghost use Rattle.loops.specs.Loop.{copied, zeros_like, row_put};

use numbers::limit::UNKNOWNS;

// Copies `src` over the front of `dst`, as far as both go.
// kept: a loop over floats, since `copy_from_slice` may call memmove, and the archive asks the C library for memcpy and memset alone.
pub fn copy(src: &[f64], dst: &mut [f64])
    ensures { dst.new ≡ copied src.now dst.old }
{
    let n = src.len().min(dst.len());
    for i in 0..n {
        dst[i] = src[i];
    }
}

// Every number of `x` becomes 0.0, or stays. One equation says both, where a branch would give each caller two cases.
pub fn clear_if(x: &mut [f64], yes: bool)
    ensures { x.new ≡ cond yes (zeros_like x.old) x.old }
{
    if yes {
        x.fill(0.0);
    }
}

// 48 zeros, one for each unknown there can be. The length is named too: a caller that works in them need not see the list.
pub fn cells() -> [f64; UNKNOWNS]
    ensures { (length result ≡ most_unknowns) × (result ≡ replicate most_unknowns nought) }
{
    [0.0; UNKNOWNS]
}

// Puts a row, a time and then a vector, at a place of a buffer; writes nothing where the row does not fit.
pub fn put_row(rows: &mut [f64], place: usize, t: f64, v: &[f64])
    ensures { rows.new ≡ row_put place t v.now rows.old }
{
    if rows.len() <= place {
        return;
    }
    let a = place + 1;
    if rows.len() - a < v.len() {
        return;
    }
    let e = a + v.len();
    rows[place] = t;
    copy(v, &mut rows[a..e]);
}
