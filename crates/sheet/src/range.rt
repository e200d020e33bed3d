// The numbers of an element against the counts of a call: refusals 8, 9 and 10.
ghost use Rattle.std.specs.Prelude.{◌≡◌, ◌++◌, take, map};
ghost use Rattle.sheet.specs.Range.{nodes_of, sources_of, points_of, nodes_fit, sources_fit, points_fit, element_fault};

use super::{Element, Limits, NodeId, SourceId};
use numbers::refusal::Refusal;

impl Element {
    ghost use Rattle.std.specs.Prelude.{[], ◌∷◌, MatchOption};

    // The element's nodes, its control nodes too; where it has none of these, the two others stand there twice.
    #[tactic(auto, unfolding(crate::specs::Range::nodes_of))]
    pub fn nodes(self) -> [NodeId; 4]
        ensures { result ≡ take 4 (nodes_of self ++ nodes_of self) }
    {
        match self {
            Element::R { a, b, .. } | Element::C { a, b, .. } | Element::L { a, b, .. } => {
                [a, b, a, b]
            }
            Element::Vcvs { p, n, cp, cn, .. } | Element::Vccs { p, n, cp, cn, .. } => {
                [p, n, cp, cn]
            }
            Element::I { p, n, .. }
            | Element::V { p, n, .. }
            | Element::D { p, n, .. }
            | Element::Isin { p, n, .. }
            | Element::Vsin { p, n, .. }
            | Element::Vpwl { p, n, .. } => [p, n, p, n],
        }
    }

    // Its source number, where its kind has one.
    #[tactic(auto, unfolding(crate::specs::Range::sources_of))]
    pub fn source(self) -> Option<SourceId>
        ensures { MatchOption result (sources_of self ≡ []) (λ s. sources_of self ≡ s ∷ []) }
    {
        match self {
            Element::V { source, .. }
            | Element::Vsin { source, .. }
            | Element::Vpwl { source, .. }
            | Element::Vcvs { source, .. }
            | Element::L { source, .. } => Some(source),
            Element::R { .. }
            | Element::I { .. }
            | Element::D { .. }
            | Element::Isin { .. }
            | Element::C { .. }
            | Element::Vccs { .. } => None,
        }
    }

    // How many of the points given it takes to hold its own.
    #[tactic(auto, unfolding(crate::specs::Range::points_of))]
    pub fn points(self) -> usize
        ensures { result ≡ points_of self }
    {
        match self {
            Element::Vpwl { first, count, .. } => first as usize + count as usize,
            _ => 0,
        }
    }
}

// Whether every node of the element is below the node count.
pub fn nodes_fit(nodes: usize, e: Element) -> bool
    ensures { result ≡ nodes_fit nodes e }
{
    e.nodes().iter().all(|p| (p.0 as usize) < nodes)
}

// Whether the element's source number, where it has one, is below the source count.
pub fn sources_fit(sources: usize, e: Element) -> bool
    ensures { result ≡ sources_fit sources e }
{
    e.source().is_none_or(|s| (s.0 as usize) < sources)
}

// Whether the element's points, where it has some, are among those given.
#[tactic(auto, unfolding(crate::specs::Range::points_fit))]
pub fn points_fit(points: usize, e: Element) -> bool
    ensures { result ≡ points_fit points e }
{
    e.points() <= points
}

// The lowest refusal that the element meets, if any, told whether its source number is its own.
#[tactic(auto, unfolding(crate::specs::Range::element_fault))]
pub fn element_fault(l: Limits, own: bool, e: Element) -> Result<(), Refusal>
    ensures { result ≡ element_fault l own e }
{
    if !nodes_fit(l.nodes, e) {
        return Err(Refusal::Node);
    }
    if !(own & sources_fit(l.sources, e)) {
        return Err(Refusal::Source);
    }
    if !points_fit(l.points, e) {
        return Err(Refusal::Pattern);
    }
    Ok(())
}
