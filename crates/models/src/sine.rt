// The sinusoidal sources. The current's and the voltage's Rust files hold the same arithmetic, so one function serves both.
ghost use Rattle.std.specs.Prelude.{◌≡◌};
ghost use Rattle.models.specs.Sine.{sine_at};

const PI: f64 = 3.141592653589793;

// The level at time t of the offset vo, the amplitude va and the frequency freq; none where the sine refuses its argument.
pub fn evaluate(vo: f64, va: f64, freq: f64, t: f64) -> Option<f64>
    ensures { result ≡ sine_at vo va freq t }
{
    let y = functions::sin(2.0 * PI * freq * t)?;
    Some(vo + va * y)
}
