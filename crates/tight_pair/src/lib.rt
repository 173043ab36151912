// The tight pair (SCOPE 12): a segment and a node, not exempt, whose distance is the least clearance.
#![tactic(auto)]

ghost use Rattle.std.specs.Prelude.{◌≡◌, List, ℕ, length};
ghost use Rattle.drawing.specs.Entries as Entries;
ghost use Rattle.drawing.specs.Entries.{Exemption, lent_segments, lent_nodes, lent_exemptions, segments, nodes};
ghost use Rattle.drawing.specs.Inner.Lengths.{SegmentsAgree, NodesAgree};
ghost use Rattle.exemptions.specs.Inner.Exempting.{Holds, Listed};
ghost use Rattle.tight_pair.specs.TightPair.{Answered};
ghost use Rattle.tight_pair.specs.Inner.Looking.{nearer, look_nodes, look_segments};

mod checks;

use crate::checks::check_tight_pair;
use boxes::Aabb;
use drawing::{Exemptions, Nodes, Refusal, Segments};
use exemptions::{Range, gather, is_exempt, net_range};

// Positions of a segment and of a node in the given lists.
#[derive(Clone, Copy)]
pub struct TightPair {
    pub segment: usize,
    pub node: usize,
}

// A pair and its distance.
#[derive(Clone, Copy)]
struct Best {
    distance: f64,
    pair: TightPair,
}

// Whether a distance is strictly below that of the best pair so far, if there is one.
fn is_nearer(distance: f64, best: Option<Best>) -> bool
    ensures { result ≡ nearer distance best }
{
    match best {
        None => true,
        Some(best) => distance < best.distance,
    }
}

// One segment and each node in turn. The exemption is searched only where the pair would be the best.
fn look_at_nodes(
    words: &[u64],
    range: Range,
    bounds: Aabb,
    segment: usize,
    nodes: &Nodes<'_>,
    so_far: Option<Best>,
) -> Option<Best>
    requires { NodesAgree (lent_nodes nodes.now) }
    ensures { (ex : List Exemption) (net : ℕ) → Listed words.now ex net range → result ≡ look_nodes ex net bounds segment (Entries.nodes (lent_nodes nodes.now)) so_far }
{
    let mut best = so_far;
    for node in 0..nodes.id.len() {
        let entry = nodes.at(node);
        let distance = bounds.distance(Aabb::from_node(entry));
        if is_nearer(distance, best) && !is_exempt(words, range, entry.id) {
            best = Some(Best {
                distance,
                pair: TightPair { segment, node },
            });
        }
    }
    best
}

// Each segment in turn with each node, until a segment has a pair at distance 0. The first k words hold the exemptions.
fn look_at_segments(
    words: &[u64],
    k: usize,
    segments: &Segments<'_>,
    nodes: &Nodes<'_>,
) -> Option<Best>
    requires { SegmentsAgree (lent_segments segments.now) × NodesAgree (lent_nodes nodes.now) }
    ensures { (ex : List Exemption) → Holds words.now ex → k ≡ length ex → result ≡ look_segments ex (Entries.segments (lent_segments segments.now)) (Entries.nodes (lent_nodes nodes.now)) }
{
    let mut best = None;
    for position in 0..segments.net.len() {
        // No distance is below 0, so no later pair is nearer.
        if !is_nearer(0.0, best) {
            return best;
        }
        let segment = segments.at(position);
        let range = net_range(words, k, segment.net);
        let bounds = Aabb::from_segment(segment);
        best = look_at_nodes(words, range, bounds, position, nodes, best);
    }
    best
}

// The pair is the first one: the lowest segment position and then the lowest node position of those at the least distance. The contract leaves the choice open.
pub fn tight_pair(
    segments: &Segments<'_>,
    nodes: &Nodes<'_>,
    exemptions: &Exemptions<'_>,
) -> Result<Option<TightPair>, Refusal>
    ensures { Answered (lent_segments segments.now) (lent_nodes nodes.now) (lent_exemptions exemptions.now) result }
{
    check_tight_pair(segments, nodes, exemptions)?;
    segments.held();
    nodes.held();
    let mut words = [0; 4096];
    gather(&mut words, exemptions);
    let best = look_at_segments(&words, exemptions.net.len(), segments, nodes);
    Ok(best.map(|best| best.pair))
}
