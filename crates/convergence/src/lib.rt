// The convergence check: whether a solved vector agrees with the one before it. The Rust's `convergence_check`.
#![tactic(auto)]

ghost use Rattle.std.specs.Prelude.{◌≡◌};
ghost use Rattle.convergence.specs.Convergence.{limit as limitOf, place as place_of, convergence_of};

use num::{absolute, finite};
use options::Options;

// kept: four answers in one enum, since whoever asks for a verdict matches all four, and "no" and "error" are as much answers as "yes".
#[derive(Clone, Copy, Debug, PartialEq, Eq)]
pub enum Convergence {
    Yes,
    No,
    Error,
    // y is shorter than x
    Refused,
}

// Whether x agrees with y at every place, of which the first `nodes` are nodes and the rest sources; the last place that speaks decides.
pub fn convergence_check(x: &[f64], y: &[f64], nodes: usize, o: Options) -> Convergence
    ensures { result ≡ convergence_of x.now y.now nodes o }
{
    if y.len() < x.len() {
        return Convergence::Refused;
    }
    let mut r = Convergence::Yes;
    for (i, v) in x.iter().enumerate() {
        r = place(*v, y[i], i < nodes, o, r);
    }
    r
}

// What one place makes of the answer so far.
fn place(x: f64, y: f64, node: bool, o: Options, r: Convergence) -> Convergence
    ensures { result ≡ place_of x y node o r }
{
    if !finite(x) {
        return Convergence::Error;
    }
    if limit(x, node, o) < absolute(x - y) {
        Convergence::No
    } else {
        r
    }
}

// The difference that x may have.
pub fn limit(x: f64, node: bool, o: Options) -> f64
    ensures { result ≡ limitOf x node o }
{
    let least = if node { o.vntol } else { o.abstol };
    absolute(x) * o.reltol + least
}
