//! What follows from the definitions: the contract of each function is a law, and its body is empty.

ghost use Rattle.node_tree.specs.Laws.{AncestorsFirst, LongestIdLeads, NoIdLeadsNowhere, SubtreesAreRuns};

/// In an outline, and so in a tree, each node stands after what it is below, and each subtree is a run
/// of rows.
pub fn document_order()
    ensures ancestors { AncestorsFirst }
    ensures runs { SubtreesAreRuns }
{}

/// A target text with `#` leads down from the longest id that it begins with, where an id ends with the
/// text or before a dot, and nowhere if it begins with none.
pub fn longest_id()
    ensures led { LongestIdLeads }
    ensures none { NoIdLeadsNowhere }
{}
