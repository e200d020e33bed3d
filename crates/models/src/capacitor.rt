// The capacitor's companion model by backward Euler.
ghost use Rattle.std.specs.Prelude.{◌≡◌};
ghost use Rattle.models.specs.Capacitor.{companion_of};

// The conductance and the current that stand for a capacitor through one step.
#[derive(Clone, Copy, Debug)]
pub struct Companion {
    pub g: f64,
    pub i: f64,
}

// The model of `value` farads with v_prev volts across it at the last solved time, for a step of t_delta.
pub fn linearize(value: f64, v_prev: f64, t_delta: f64) -> Companion
    ensures { result ≡ companion_of value v_prev t_delta }
{
    let g = value / t_delta;
    Companion { g, i: g * v_prev }
}
