//! The rule that the depth of each node keeps.
ghost use Rattle.std.specs.Prelude.{◌<◌, length, Decides, MatchOption};
ghost use Rattle.shapes.specs.DepthTables.{FirstFault};
ghost use Rattle.shapes.specs.Depths.{KeepsRule, LawfulDepths};

/// Whether a node's depth is 0 at the root, and elsewhere above 0 and at most one more than before.
fn keeps_rule(depths: &[u16], node: usize) -> bool
    requires { node < length depths.now }
    ensures { Decides result (KeepsRule depths.now node) }
{
    if node == 0 {
        depths[node] == 0
    } else {
        depths[node] >= 1 && depths[node] - 1 <= depths[node - 1]
    }
}

/// The first node whose depth breaks the rule. Unlike a filling it takes no memory, and any number of depths.
pub fn first_fault(depths: &[u16]) -> Option<usize>
    ensures { MatchOption result (LawfulDepths depths.now) (FirstFault depths.now) }
{
    (0..depths.len()).find(|node| !keeps_rule(depths, *node))
}
