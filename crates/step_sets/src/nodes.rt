//! What a node of the tree is.

ghost use Rattle.std.specs.Prelude.{◌↔◌, ◌<◌, IsTrue, length};
ghost use Rattle.node_tree.specs.Kinds.{IsHistory, IsLeaf};

use node_tree::Tree;

/// Whether a node is a history node.
pub(crate) fn is_history(tree: &Tree, node: u32) -> bool
    requires { node < length tree.now }
    ensures { IsTrue result ↔ IsHistory tree.now node }
{
    tree.node(node).kind.is_history()
}

/// Whether a node is atomic or final.
pub(crate) fn is_leaf(tree: &Tree, node: u32) -> bool
    requires { node < length tree.now }
    ensures { IsTrue result ↔ IsLeaf tree.now node }
{
    tree.node(node).kind.is_leaf()
}
