// The inductor's companion model by backward Euler. The Rust has no inductor: the formulas are the users'.
ghost use Rattle.std.specs.Prelude.{◌≡◌};
ghost use Rattle.models.specs.Inductor.{conductance_of, current_after};

// The conductance that stands for `value` henries through a step of t_delta. It is stamped as it is, not as a resistor of its inverse.
pub fn conductance(value: f64, t_delta: f64) -> f64
    ensures { result ≡ conductance_of value t_delta }
{
    t_delta / value
}

// The current after an accepted step of t_delta, with v volts across it at its end and a current of i_prev before it.
pub fn current(value: f64, t_delta: f64, v: f64, i_prev: f64) -> f64
    ensures { result ≡ current_after value t_delta v i_prev }
{
    conductance(value, t_delta) * v + i_prev
}
