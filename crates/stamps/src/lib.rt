// Stamps: each function writes the entries that its definition lists, in that order, into a system of n rows of n + 1 floats.
// Nodes and a source's row are plain row numbers; nothing here knows an element. Ground's entries, and what lies outside the system, are not written.
// kept: the system m and its order n are two parameters, as the groups lend them; a struct of both would hold a `&mut` and be made anew at every call.
#![tactic(auto)]

ghost use Rattle.std.specs.Prelude.{◌≡◌, ◌<◌, ◌≤◌, MatchOption};
ghost use Rattle.stamps.specs.Write.{adds, puts, lands as landing, spot_of, written, stamped};
ghost use Rattle.stamps.specs.Kinds.{current_writes, conductance_writes, resistor_writes, voltage_writes, vcvs_writes, vccs_writes, capacitor_writes, diode_writes, inductor_writes};

use numbers::limit::UNKNOWNS;

// The two nodes that something stands between, the first and the second.
#[derive(Clone, Copy, Debug, PartialEq, Eq)]
pub struct Ends {
    pub a: usize,
    pub b: usize,
}

// A current i from the first node to the second.
pub fn stamp_current(m: &mut [f64], n: usize, ends: Ends, i: f64)
    ensures { m.new ≡ stamped n (current_writes n ends.a ends.b i) m.old }
{
    add_at(m, n, ends.a, n, -i);
    add_at(m, n, ends.b, n, i);
}

// A conductance g between its ends.
pub fn stamp_conductance(m: &mut [f64], n: usize, ends: Ends, g: f64)
    ensures { m.new ≡ stamped n (conductance_writes ends.a ends.b g) m.old }
{
    add_at(m, n, ends.a, ends.a, g);
    add_at(m, n, ends.a, ends.b, -g);
    add_at(m, n, ends.b, ends.b, g);
    add_at(m, n, ends.b, ends.a, -g);
}

// A resistor between its ends.
pub fn stamp_resistor(m: &mut [f64], n: usize, ends: Ends, value: f64)
    ensures { m.new ≡ stamped n (resistor_writes ends.a ends.b value) m.old }
{
    stamp_conductance(m, n, ends, 1.0 / value);
}

// A source at row s that holds the first node above the second by v.
pub fn stamp_voltage(m: &mut [f64], n: usize, s: usize, ends: Ends, v: f64)
    ensures { m.new ≡ stamped n (voltage_writes n s ends.a ends.b v) m.old }
{
    put_at(m, n, s, n, v);
    put_at(m, n, s, ends.a, 1.0);
    put_at(m, n, ends.a, s, 1.0);
    put_at(m, n, s, ends.b, -1.0);
    put_at(m, n, ends.b, s, -1.0);
}

// A source at row s that holds the first node above the second by k times the first control above the second.
pub fn stamp_vcvs(m: &mut [f64], n: usize, s: usize, ends: Ends, controls: Ends, k: f64)
    ensures { m.new ≡ stamped n (vcvs_writes s ends.a ends.b controls.a controls.b k) m.old }
{
    add_at(m, n, ends.a, s, 1.0);
    add_at(m, n, ends.b, s, -1.0);
    add_at(m, n, s, controls.a, k);
    add_at(m, n, s, controls.b, -k);
    add_at(m, n, s, ends.a, -1.0);
    add_at(m, n, s, ends.b, 1.0);
}

// A current from the first node to the second of k times the first control above the second.
pub fn stamp_vccs(m: &mut [f64], n: usize, ends: Ends, controls: Ends, k: f64)
    ensures { m.new ≡ stamped n (vccs_writes ends.a ends.b controls.a controls.b k) m.old }
{
    add_at(m, n, ends.a, controls.a, k);
    add_at(m, n, ends.a, controls.b, -k);
    add_at(m, n, ends.b, controls.a, -k);
    add_at(m, n, ends.b, controls.b, k);
}

// A capacitor's companion: the current i from the second node to the first, and the conductance g as a resistor of 1/g.
pub fn stamp_capacitor(m: &mut [f64], n: usize, ends: Ends, g: f64, i: f64)
    ensures { m.new ≡ stamped n (capacitor_writes n ends.a ends.b g i) m.old }
{
    let back = Ends {
        a: ends.b,
        b: ends.a,
    };
    stamp_current(m, n, back, i);
    stamp_resistor(m, n, ends, 1.0 / g);
}

// A diode's companion: the current i from the first node to the second, and the conductance g as a resistor of 1/g.
pub fn stamp_diode(m: &mut [f64], n: usize, ends: Ends, g: f64, i: f64)
    ensures { m.new ≡ stamped n (diode_writes n ends.a ends.b g i) m.old }
{
    stamp_current(m, n, ends, i);
    stamp_resistor(m, n, ends, 1.0 / g);
}

// An inductor's companion at row s: the conductance g as it is, the current i from the first node to the second, and 1.0 as all that its own row and column hold.
pub fn stamp_inductor(m: &mut [f64], n: usize, s: usize, ends: Ends, g: f64, i: f64)
    ensures { m.new ≡ stamped n (inductor_writes n s ends.a ends.b g i) m.old }
{
    stamp_conductance(m, n, ends, g);
    stamp_current(m, n, ends, i);
    put_at(m, n, s, s, 1.0);
}

// Entry c of row r gains v.
fn add_at(m: &mut [f64], n: usize, r: usize, c: usize, v: f64)
    ensures { m.new ≡ written n (adds r c v) m.old }
{
    if let Some(at) = spot(m.len(), n, r, c) {
        m[at] += v;
    }
}

// Entry c of row r becomes v.
fn put_at(m: &mut [f64], n: usize, r: usize, c: usize, v: f64)
    ensures { m.new ≡ written n (puts r c v) m.old }
{
    if let Some(at) = spot(m.len(), n, r, c) {
        m[at] = v;
    }
}

// Where entry c of row r stands in a list of len floats, if a stamp writes it there.
fn spot(len: usize, n: usize, r: usize, c: usize) -> Option<usize>
    ensures { MatchOption result (len ≤ spot_of len n r c) (λ at. (at < len) × (at ≡ spot_of len n r c)) }
{
    if !lands(n, r, c) {
        return None;
    }
    let at = r * (n + 1) + c;
    if at < len { Some(at) } else { None }
}

// Whether entry c of row r is one that a stamp may write.
fn lands(n: usize, r: usize, c: usize) -> bool
    ensures { result ≡ landing n r c }
{
    r != 0 && c != 0 && r < n && c <= n && n <= UNKNOWNS
}
