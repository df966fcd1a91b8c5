//! The least bounds of those that wait below a prefix.

ghost use Rattle.std.specs.Prelude.{◌≡◌, ◌≢◌, ℕ, ◌+◌, ◌<◌, ◌≤◌, length, slice_index};
ghost use Rattle.choice_search.specs.Arenas.{node_at, IsArena, IsLeastBelow, HasLeasts};

use crate::arenas::Node;

/// The least of the numbers of the node's children.
fn least_below(node: &Node, leasts: &[u64]) -> u64
    requires some { 0 < node.now.count }
    requires within { node.now.first + node.now.count ≤ length leasts.now }
    ensures { IsLeastBelow node.now leasts.now result }
{
    let first = node.first as usize;
    let mut least = leasts[first];
    for number in first + 1..first + node.count as usize {
        least = least.min(leasts[number]);
    }
    least
}

/// Brings the least bounds up to date from a prefix that was split, up to the empty one. The time
/// is linear in the prefix's choices.
pub fn lift(nodes: &[Node], leasts: &mut [u64], from: usize)
    requires arena { IsArena nodes.now }
    requires size { length leasts.old ≡ length nodes.now }
    requires within { from < length nodes.now }
    requires split { 0 < (node_at nodes.now from).count }
    requires others { (i : ℕ) → i < length nodes.now → 0 < (node_at nodes.now i).count → i ≢ from → IsLeastBelow (node_at nodes.now i) leasts.old (slice_index leasts.old i) }
    ensures leasts { HasLeasts nodes.now leasts.new }
    ensures waiting { (i : ℕ) → i < length nodes.now → (node_at nodes.now i).count ≡ 0 → slice_index leasts.new i ≡ slice_index leasts.old i }
{
    let mut number = from;
    leasts[number] = least_below(&nodes[number], leasts);
    while number > 0 {
        number = nodes[number].parent as usize;
        leasts[number] = least_below(&nodes[number], leasts);
    }
}
