// What a run refuses before it touches anything: refusals 1 to 5 on counts, lengths and options, then the sheet's own 6 to 10, in their order.
// Every public function is total.
#![tactic(auto)]

ghost use Rattle.std.specs.Prelude.{◌≡◌, ◌+◌, ◌≤◌};
ghost use Rattle.numbers.specs.Limits.{most_unknowns};
ghost use Rattle.checks.specs.Checks.{bad_order, bad_counts, bad_room, sizes_fault, checked_of};

use numbers::limit;
use numbers::refusal::Refusal;
use options::Options;
use sheet::{Fault, Limits};

// The counts of a run and the lengths of what is lent to it. A DC run has no rows: `transient` tells whether `rows` counts.
#[derive(Clone, Copy, Debug, PartialEq, Eq, Hash)]
pub struct Sizes {
    pub nodes: usize,
    pub sources: usize,
    pub sheet: usize,
    pub points: usize,
    pub base: usize,
    pub system: usize,
    pub elimination: usize,
    pub vector: usize,
    pub memory: usize,
    pub rows: usize,
    pub transient: bool,
}

// The first refusal of 1 to 10 with its place, if there is one.
pub fn check(o: Options, z: Sizes, sheet: &[u8]) -> Result<(), Fault>
    ensures { result ≡ checked_of o z sheet.now }
{
    refusal(o, z).map_err(|refusal| Fault { refusal, place: 0 })?;
    let l = Limits {
        nodes: z.nodes,
        sources: z.sources,
        points: z.points / sheet::POINT,
    };
    sheet::check_sheet(sheet, l)
}

// The first refusal of 1 to 5, if there is one.
pub fn refusal(o: Options, z: Sizes) -> Result<(), Refusal>
    ensures { result ≡ sizes_fault o z }
{
    if bad_order(z.nodes, z.sources) {
        return Err(Refusal::Order);
    }
    if sheet::bad_sheet(z.sheet) {
        return Err(Refusal::Sheet);
    }
    if sheet::bad_points(z.points) {
        return Err(Refusal::Points);
    }
    if bad_counts(o) {
        return Err(Refusal::Counts);
    }
    if bad_room(z) {
        return Err(Refusal::Room);
    }
    Ok(())
}

// Whether counts are refused by 1. Their sum is never formed where it could wrap.
pub fn bad_order(nodes: usize, sources: usize) -> bool
    ensures { result ≡ bad_order nodes sources }
{
    if limit::UNKNOWNS < nodes {
        return true;
    }
    (nodes == 0) | (limit::UNKNOWNS - nodes < sources)
}

// Whether the limits and the budget are refused by 4.
#[tactic(auto, unfolding(crate::specs::Checks::bad_counts))]
pub fn bad_counts(o: Options) -> bool
    ensures { result ≡ bad_counts o }
{
    let limits = (limit::PASSES < o.itl1) | (limit::PASSES < o.itl3) | (limit::PASSES < o.itl4);
    limits | (o.budget == 0) | (limit::BUDGET < o.budget)
}

// Whether a lent buffer is too short.
fn bad_room(z: Sizes) -> bool
    requires { z.nodes + z.sources ≤ most_unknowns }
    ensures { result ≡ bad_room z }
{
    let n = z.nodes + z.sources;
    let cells = n * (n + 1);
    let matrices = (z.base < cells) | (z.system < cells) | (z.elimination < cells);
    let vectors = (z.vector < n) | (z.memory < z.sheet / sheet::RECORD);
    matrices | vectors | (z.transient & (z.rows < n + 1))
}
