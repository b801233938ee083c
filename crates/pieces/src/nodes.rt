//! The nodes of a strip that are kept.

ghost use Rattle.std.specs.Prelude.{◌≡◌, ◌<◌, get_or, length, set};
ghost use Rattle.space.specs.declared.node.Node.{Node};

use space::Node;

/// Puts the node at a position at another too. Where they are the same it is left alone: most strips keep all their nodes, and
/// then none is read or written.
pub fn move_node(nodes: &mut Vec<Node>, from: usize, to: usize)
    requires from { from < length nodes.old.items }
    requires to { to < length nodes.old.items }
    ensures { (n : Node) → nodes.new.items ≡ set nodes.old.items to (get_or nodes.old.items from n) }
{
    if to != from {
        nodes[to] = nodes[from];
    }
}
