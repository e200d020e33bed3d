// The options of a run: one set of numbers, handed in by copy. Their floats may be any bits; the counts are checked where a run begins.
#![tactic(auto)]

#[repr(C)]
#[derive(Clone, Copy, Debug, PartialEq)]
pub struct Options {
    pub reltol: f64,
    pub vntol: f64,
    pub abstol: f64,
    pub tstart: f64,
    pub tstop: f64,
    pub tstep: f64,
    pub fs: f64,
    pub ft: f64,
    pub rmin: f64,
    pub rmax: f64,
    pub gmin: f64,
    pub boltzmann: f64,
    pub charge: f64,
    pub itl1: u64,
    pub itl3: u64,
    pub itl4: u64,
    pub budget: u64,
    // 0 off, anything else on: a pass that would say "yes" says "no" while a diode is behind
    pub catchup: u64,
    // 0 off, anything else on: a pattern has its first level up to its first point's own time and, without repeat, its last level from its end on
    pub pattern_first: u64,
}
