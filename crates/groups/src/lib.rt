// The stamping groups over a sheet: the base of a run, and what each pass adds to it. Every function is total: a record that does not decode writes
// nothing, a number read past the end of a vector is no number, and nothing is written outside the system or past a buffer's end.
#![tactic(auto)]

pub mod diodes;
mod plain;
pub mod records;
mod sources;
pub mod storage;

ghost use Rattle.std.specs.Prelude.{◌≡◌};
ghost use Rattle.groups.specs.Sources.{driven_of};
ghost use Rattle.groups.specs.Stamping.{base_of, completed, linear_of};

// Which pass is stamped: the node count, the order (nodes and sources), in the transient the time and the step, and whether patterns go by the rule of the option.
#[derive(Clone, Copy)]
pub struct Pass {
    pub nodes: usize,
    pub order: usize,
    pub transient: bool,
    pub time: f64,
    pub step: f64,
    pub pattern_first: bool,
}

// Makes the base matrix of a run: I, R and V over zeros.
pub fn stamp_base(sheet: &[u8], nodes: usize, order: usize, base: &mut [f64])
    ensures { base.new ≡ base_of nodes order sheet.now base.old }
{
    base.fill(0.0);
    plain::stamp_base(sheet, nodes, order, base);
}

// Stamps over a copy of the base what a pass has besides its diodes, and answers 0, or the verdict 26 that ended it. Of the memory it reads the inductors' currents alone.
pub fn stamp_linear(
    p: Pass,
    sheet: &[u8],
    points: &[u8],
    base: &[f64],
    accepted: &[f64],
    memory: &[f64],
    matrix: &mut [f64],
) -> u8
    ensures { driven_of result matrix.new
        ≡ linear_of p sheet.now points.now base.now accepted.now memory.now matrix.old }
{
    loops::copy(base, matrix);
    let code = sources::stamp_independent(p, sheet, points, matrix);
    if code != 0 {
        return code;
    }
    complete(p, sheet, accepted, memory, matrix);
    0
}

// The stamps that follow the independent sources.
fn complete(p: Pass, sheet: &[u8], accepted: &[f64], memory: &[f64], matrix: &mut [f64])
    ensures { matrix.new ≡ completed p sheet.now accepted.now memory.now matrix.old }
{
    plain::stamp_dependent(sheet, p.nodes, p.order, matrix);
    storage::stamp_storage(p, sheet, accepted, memory, matrix);
}
