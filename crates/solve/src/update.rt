// The update of a row by the pivot's: `m[to + i] - m[from + i] * ratio` for each i, in two roundings.
ghost use Rattle.std.specs.Prelude.{◌≡◌, ◌+◌, ◌-◌, ◌*◌, ◌≤◌, ◌<◌, length};
ghost use Rattle.solve.specs.Solve.{less_scaled};

// Takes `ratio` times the `len` entries from `from` on off those from `to` on: four at a time where there are many, so that the loop ends with no rest of its own.
pub fn less_scaled(m: &mut [f64], from: usize, to: usize, len: usize, ratio: f64)
    requires { (from + len ≤ length m.old) × (to + len ≤ length m.old) }
    ensures { m.new ≡ less_scaled from to len ratio m.old }
{
    let many = fours(len);
    less_each(m, from, to, many, ratio);
    less_few(m, from + many, to + many, len - many, ratio);
}

// The entries of a part that are worth a loop: a multiple of four, with fewer than eight left.
fn fours(len: usize) -> usize
    ensures { (result ≤ len) × (len - result < 8) }
{
    if len < 8 { 0 } else { len / 4 * 4 }
}

// The same, entry after entry.
#[inline(always)]
pub fn less_each(m: &mut [f64], from: usize, to: usize, len: usize, ratio: f64)
    requires { (from + len ≤ length m.old) × (to + len ≤ length m.old) }
    ensures { m.new ≡ less_scaled from to len ratio m.old }
{
    for i in 0..len {
        m[to + i] -= m[from + i] * ratio;
    }
}

// The same for fewer than eight entries, without a loop.
// kept in parts for speed: what a loop has left over would be done one by one, for every row.
fn less_few(m: &mut [f64], from: usize, to: usize, len: usize, ratio: f64)
    requires { (len < 8) × (from + len ≤ length m.old) × (to + len ≤ length m.old) }
    ensures { m.new ≡ less_scaled from to len ratio m.old }
{
    if len < 4 {
        less_below_four(m, from, to, len, ratio);
        return;
    }
    less_each(m, from, to, 4, ratio);
    less_below_four(m, from + 4, to + 4, len - 4, ratio);
}

fn less_below_four(m: &mut [f64], from: usize, to: usize, len: usize, ratio: f64)
    requires { (len < 4) × (from + len ≤ length m.old) × (to + len ≤ length m.old) }
    ensures { m.new ≡ less_scaled from to len ratio m.old }
{
    if len < 2 {
        less_each(m, from, to, len, ratio);
        return;
    }
    less_each(m, from, to, 2, ratio);
    less_each(m, from + 2, to + 2, len - 2, ratio);
}
