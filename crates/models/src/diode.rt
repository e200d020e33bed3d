// The diode: its constants, the limiting of its voltage, and its companion model.
ghost use Rattle.std.specs.Prelude.{◌≡◌};
ghost use Rattle.models.specs.Diode.{thermal, floored, linearized};

use options::Options;

const ROOT_TWO: f64 = 1.4142135623730951;

// A diode's companion model, and the voltage that it is worked out at, which the diode remembers.
#[derive(Clone, Copy, Debug)]
pub struct Model {
    pub g: f64,
    pub i: f64,
    pub memory: f64,
}

// The situation of a diode that last stood at v_d_prev and is now asked to stand at v_hat; v_delta is v_hat - v_d_prev. A situation holds where its condition does
// and none above it does, so that exactly one holds for any numbers. Over each stands when that is, and the Rust's own condition; "up" and "down" are for a thermal
// voltage above zero, as a diode warmer than -363 C has. docs/DIODE.md has a picture.
#[derive(Clone, Copy, Debug)]
pub enum Situation {
    // The step, up or down, is at most two thermal voltages.
    // Rust: v_delta.abs() <= 2.0 * self.v_thermal
    SmallStep,
    // The diode is asked to stand below its critical voltage.
    // Rust: v_hat < self.v_crit
    BelowCritical,
    // The diode was not forward biased: its last voltage was zero or below.
    // Rust: v_d_prev <= 0.0
    TurnOn,
    // A step far down: arg, one plus the step counted in thermal voltages, is zero or below and has no logarithm.
    // Rust: arg <= 0.0
    FallBack { v_crit: f64 },
    // All others: the diode was forward biased and goes up by more than two thermal voltages, or a NaN is among the numbers.
    // Rust: else
    Climb { arg: f64 },
}

// The model of a diode at the voltage v_hat, with the voltage v_d_prev that it was last limited to; none where its current is not finite.
pub fn linearize(o: Options, i_sat: f64, tdegc: f64, v_hat: f64, v_d_prev: f64) -> Option<Model>
    ensures { result ≡ linearized o i_sat tdegc v_hat v_d_prev }
{
    Diode::new(o, i_sat, tdegc, v_d_prev).linearize_at(v_hat)
}

// The thermal voltage.
pub fn thermal_voltage(o: Options, tdegc: f64) -> f64
    ensures { result ≡ thermal o tdegc }
{
    o.boltzmann * (363.0 + tdegc) / o.charge
}

// A diode: its constants, and the voltage that it was last limited to.
#[derive(Clone, Copy, Debug)]
pub struct Diode {
    pub gmin: f64,
    pub i_sat: f64,
    pub v_thermal: f64,
    pub v_d_prev: f64,
}

impl Diode {
    ghost use Rattle.models.specs.Diode.{diode_of, critical, limited, model_at};
    ghost use Rattle.models.specs.Situation.{situation_of, limited_in};

    // The diode at a temperature.
    pub fn new(o: Options, i_sat: f64, tdegc: f64, v_d_prev: f64) -> Diode
        ensures { result ≡ diode_of o i_sat tdegc v_d_prev }
    {
        Diode {
            gmin: o.gmin,
            i_sat,
            v_thermal: thermal_voltage(o, tdegc),
            v_d_prev,
        }
    }

    // Its model at the voltage v_hat; none where its current is not finite.
    pub fn linearize_at(self, v_hat: f64) -> Option<Model>
        ensures { result ≡ model_at self.gmin self.i_sat self.v_thermal (limited self.v_thermal (critical self.v_thermal self.i_sat) v_hat self.v_d_prev) }
    {
        let s = self.situation_of(v_hat);
        self.model_at(self.limited_in(s, v_hat))
    }

    // The critical voltage, from which on steps are limited.
    fn critical_voltage(self) -> f64
        ensures { result ≡ critical self.v_thermal self.i_sat }
    {
        self.v_thermal * functions::ln(self.v_thermal / (ROOT_TWO * self.i_sat))
    }

    // Which of the five situations holds: the first condition that is met, in this order. The Rust asks whether v_hat is below the critical voltage before it asks for
    // a small step. Where both hold, v_hat passes by either, so that the small step can come first: then the critical voltage, a logarithm, is worked out for the other
    // steps alone.
    pub fn situation_of(self, v_hat: f64) -> Situation
        ensures { result ≡ situation_of self.v_thermal (critical self.v_thermal self.i_sat) v_hat self.v_d_prev }
    {
        let v_delta = v_hat - self.v_d_prev;
        if num::absolute(v_delta) <= 2.0 * self.v_thermal {
            return Situation::SmallStep;
        }
        let v_crit = self.critical_voltage();
        if v_hat < v_crit {
            return Situation::BelowCritical;
        }
        if self.v_d_prev <= 0.0 {
            return Situation::TurnOn;
        }
        let arg = 1.0 + v_delta / self.v_thermal;
        if arg <= 0.0 {
            return Situation::FallBack { v_crit };
        }
        Situation::Climb { arg }
    }

    // The limited voltage in a situation: one formula for each.
    pub fn limited_in(self, s: Situation, v_hat: f64) -> f64
        ensures { result ≡ limited_in s self.v_thermal v_hat self.v_d_prev }
    {
        match s {
            Situation::SmallStep => v_hat,
            Situation::BelowCritical => v_hat,
            Situation::TurnOn => self.v_thermal * functions::ln(v_hat / self.v_thermal),
            Situation::FallBack { v_crit } => v_crit,
            Situation::Climb { arg } => self.v_d_prev + self.v_thermal * functions::ln(arg),
        }
    }

    // The model at the limited voltage v_d_i.
    fn model_at(self, v_d_i: f64) -> Option<Model>
        ensures { result ≡ model_at self.gmin self.i_sat self.v_thermal v_d_i }
    {
        let exp_vd_over_vt = functions::exp(v_d_i / self.v_thermal);
        let i_d = self.i_sat * (exp_vd_over_vt - 1.0);
        if num::finite(i_d) {
            let g = floor(self.gmin, self.i_sat / self.v_thermal * exp_vd_over_vt);
            return Some(Model {
                g,
                i: i_d - g * v_d_i,
                memory: v_d_i,
            });
        }
        None
    }
}

// The conductance g, or gmin where g is below it.
fn floor(gmin: f64, g: f64) -> f64
    ensures { result ≡ floored gmin g }
{
    if g < gmin { gmin } else { g }
}
