// One stored answer of each model: its length, and whether the model answers it.
ghost use Rattle.std.specs.Prelude.{◌≤◌};

use models::diode::{Diode, Situation};
use num::{f64_at, u64_at};
use numbers::verdict::{DIODE_CURRENT, SINE_REFUSED};
use options::Options;

pub const PATTERNS: u8 = 0;

pub const CAPACITORS: u8 = 1;

pub const DIODES: u8 = 2;

pub const SINES: u8 = 3;

pub const PATTERNS_FIRST: u8 = 4;

pub const SITUATIONS: u8 = 5;

// The bytes of an entry.
pub fn size_of(kind: u8) -> usize
    ensures { result ≤ 144 }
{
    if kind == PATTERNS {
        return 144;
    }
    if kind == PATTERNS_FIRST {
        return 144;
    }
    if kind == CAPACITORS {
        return 40;
    }
    if kind == DIODES {
        return 88;
    }
    if kind == SITUATIONS {
        return 96;
    }
    48
}

// Whether the model answers the entry e as it is stored.
pub fn is_right(e: &[u8], kind: u8) -> bool {
    if kind == PATTERNS {
        return pattern_right(e, false);
    }
    if kind == PATTERNS_FIRST {
        return pattern_right(e, true);
    }
    if kind == CAPACITORS {
        return capacitor_right(e);
    }
    if kind == DIODES {
        return diode_right(e);
    }
    if kind == SITUATIONS {
        return situation_right(e);
    }
    sine_right(e)
}

// first, count, t_delay, repeat, t, the level by the option; then the six points that are lent.
fn pattern_right(e: &[u8], pattern_first: bool) -> bool {
    if e.len() < 48 {
        return false;
    }
    let first = u64_at(e, 0) as usize;
    let count = u64_at(e, 8) as usize;
    let level = models::vpwl::level(
        pattern_first,
        &e[48..],
        first,
        count,
        f64_at(e, 16),
        f64_at(e, 24),
        f64_at(e, 32),
    );
    same(level, f64_at(e, 40))
}

// value, v_prev, t_delta; g, i.
fn capacitor_right(e: &[u8]) -> bool {
    let c = models::capacitor::linearize(f64_at(e, 0), f64_at(e, 8), f64_at(e, 16));
    if same(c.g, f64_at(e, 24)) {
        return same(c.i, f64_at(e, 32));
    }
    false
}

// gmin, boltzmann, charge, i_sat, tdegc, v_hat, v_d_prev; the verdict, g, i, memory. With 22 there is no model, and the memory is v_d_prev.
fn diode_right(e: &[u8]) -> bool {
    let o = options_of(f64_at(e, 0), f64_at(e, 8), f64_at(e, 16));
    let verdict = u64_at(e, 56);
    let l = models::diode::linearize(
        o,
        f64_at(e, 24),
        f64_at(e, 32),
        f64_at(e, 40),
        f64_at(e, 48),
    );
    match l {
        Some(m) => {
            if verdict == 0 {
                return all_same(e, m.g, m.i, m.memory);
            }
            false
        }
        None => {
            if verdict == DIODE_CURRENT as u64 {
                return all_same(e, 0.0, 0.0, f64_at(e, 48));
            }
            false
        }
    }
}

// A diode's entry, and behind it the situation of its limiting.
fn situation_right(e: &[u8]) -> bool {
    let o = options_of(f64_at(e, 0), f64_at(e, 8), f64_at(e, 16));
    let d = Diode::new(o, f64_at(e, 24), f64_at(e, 32), f64_at(e, 48));
    let s = d.situation_of(f64_at(e, 40));
    if number_of(s) == u64_at(e, 88) {
        return diode_right(e);
    }
    false
}

// The situations in the order in which they are asked for, from 1.
fn number_of(s: Situation) -> u64 {
    match s {
        Situation::SmallStep => 1,
        Situation::BelowCritical => 2,
        Situation::TurnOn => 3,
        Situation::FallBack { v_crit: _ } => 4,
        Situation::Climb { arg: _ } => 5,
    }
}

// Whether g, i and memory stand at the end of a diode's entry.
fn all_same(e: &[u8], g: f64, i: f64, memory: f64) -> bool {
    if same(g, f64_at(e, 64)) {
        if same(i, f64_at(e, 72)) {
            return same(memory, f64_at(e, 80));
        }
    }
    false
}

// vo, va, freq, t; the verdict, the level, with 26 none.
fn sine_right(e: &[u8]) -> bool {
    let verdict = u64_at(e, 32);
    let l = models::sine::evaluate(f64_at(e, 0), f64_at(e, 8), f64_at(e, 16), f64_at(e, 24));
    match l {
        Some(x) => {
            if verdict == 0 {
                return same(x, f64_at(e, 40));
            }
            false
        }
        None => {
            if verdict == SINE_REFUSED as u64 {
                return same(0.0, f64_at(e, 40));
            }
            false
        }
    }
}

// Options of which the models read three numbers.
fn options_of(gmin: f64, boltzmann: f64, charge: f64) -> Options {
    Options {
        reltol: 0.0,
        vntol: 0.0,
        abstol: 0.0,
        tstart: 0.0,
        tstop: 0.0,
        tstep: 0.0,
        fs: 0.0,
        ft: 0.0,
        rmin: 0.0,
        rmax: 0.0,
        gmin: gmin,
        boltzmann: boltzmann,
        charge: charge,
        itl1: 0,
        itl3: 0,
        itl4: 0,
        budget: 1,
        catchup: 0,
        pattern_first: 0,
    }
}

// Whether x and y have the same bits, NaNs counted as one.
fn same(x: f64, y: f64) -> bool {
    if x != x {
        return y != y;
    }
    if x == 0.0 {
        if y == 0.0 {
            return 1.0 / x == 1.0 / y;
        }
    }
    x == y
}
