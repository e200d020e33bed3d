// exp, ln and sin for every float, with proved bounds, over whole numbers: the argument is taken apart and reduced exactly, and the sum is worked out in words of 64 bits.
// It stands on `num`; the models come here. Each function has a file of its own, and they share `reduce`, `word` and `pack`.
#![tactic(auto)]

mod exponential;
mod logarithm;
mod pack;
mod reduce;
mod sines;
mod word;

ghost use Rattle.std.specs.Prelude.{◌≡◌};
ghost use Rattle.functions.specs.Exp.{exp_of};
ghost use Rattle.functions.specs.Ln.{ln_of};
ghost use Rattle.functions.specs.Sin.{sin_far, sin_of};

// e to the power x: infinity above 709 and zero below -708.
pub fn exp(x: f64) -> f64
    ensures { result ≡ exp_of x }
{
    if x != x {
        return x;
    }
    if x > 709.0 {
        return 1.0 / 0.0;
    }
    if x < -708.0 {
        return 0.0;
    }
    exponential::exp_near(x)
}

// The natural logarithm of x: minus infinity of a zero, and NaN below zero.
pub fn ln(x: f64) -> f64
    ensures { result ≡ ln_of x }
{
    if x > 0.0 {
        if x == 1.0 / 0.0 {
            return x;
        }
        return logarithm::ln_positive(x);
    }
    if x == 0.0 {
        return -1.0 / 0.0;
    }
    0.0 / 0.0
}

// The sine of x: NaN of an infinity, and none where x is finite and beyond 2^20 in size, the refusal by 12.
pub fn sin(x: f64) -> Option<f64>
    ensures { result ≡ sin_of x }
{
    if x > 1048576.0 {
        return sin_far(x);
    }
    if x < -1048576.0 {
        return sin_far(x);
    }
    if x != x {
        return Some(x);
    }
    Some(sines::sin_near(x))
}

// sin beyond 2^20 in size.
fn sin_far(x: f64) -> Option<f64>
    ensures { result ≡ sin_far x }
{
    if num::finite(x) {
        return None;
    }
    Some(0.0 / 0.0)
}
