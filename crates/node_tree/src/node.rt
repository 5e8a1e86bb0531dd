//! The nodes of a machine, and the lists of nodes that other crates speak of.

ghost use Rattle.std.specs.Prelude.{◌≡◌, ◌↔◌, IsTrue};
ghost use Rattle.node_tree.specs.Kinds.{IsHistoryKind, IsLeafKind, with_default};

use xs_data::{Items, Text};

/// What a node's key and id are: a text that contracts see as its bytes.
pub type Name = Text;

/// The nodes of a tree that is to be built, in document order.
pub type NodeRows = Items<Node>;

/// Nodes by number, as the targets of a transition.
pub type Targets = Items<u32>;

/// For each history node that something is recorded for, in document order, the node and the nodes
/// that were active when its parent was left.
pub type Recorded = Items<(u32, Targets)>;

/// The byte that a target text by id begins with.
pub const HASH: u8 = b'#';

/// The byte before each key of a target text.
pub const DOT: u8 = b'.';

/// What a node is in the sense of a statechart. A node is named by its number: its place in document
/// order, counted from 0.
#[derive(Clone, Copy, Debug, PartialEq, Eq)]
pub enum Kind {
    /// A leaf that is not final.
    Atomic,
    /// One child is active whenever this node is; `initial` is entered by default.
    Compound { initial: u32 },
    /// All children but history nodes are active whenever this node is.
    Parallel,
    /// A leaf that ends its parent.
    Final,
    /// Stands for the children of its parent that were active last, or else for `default`.
    Shallow { default: Option<u32> },
    /// Stands for the leaves below its parent that were active last, or else for `default`.
    Deep { default: Option<u32> },
}

impl Kind {
    /// Whether a node of this kind is a history node, shallow or deep.
    pub fn is_history(&self) -> bool
        ensures { IsTrue result ↔ IsHistoryKind self.now }
    {
        matches!(self, Kind::Shallow { .. } | Kind::Deep { .. })
    }

    /// Whether a node of this kind is a leaf, atomic or final.
    pub fn is_leaf(&self) -> bool
        ensures { IsTrue result ↔ IsLeafKind self.now }
    {
        matches!(self, Kind::Atomic | Kind::Final)
    }

    /// The same kind of history node with this default; any other kind as it is.
    pub(crate) fn with_default(self, node: u32) -> Kind
        ensures { result ≡ with_default self node }
    {
        match self {
            Kind::Shallow { .. } => Kind::Shallow {
                default: Some(node),
            },
            Kind::Deep { .. } => Kind::Deep {
                default: Some(node),
            },
            Kind::Atomic | Kind::Compound { .. } | Kind::Parallel | Kind::Final => self,
        }
    }
}

/// One node of a machine.
#[derive(Debug, Drop)]
pub struct Node {
    /// The root has none.
    pub parent: Option<u32>,
    pub kind: Kind,
    /// What the node is called among its siblings.
    pub key: Name,
    /// What the node is called in the whole tree.
    pub id: Name,
}
