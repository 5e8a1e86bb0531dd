//! The kind of a node, as the members of its object tell it.

ghost use Rattle.std.specs.Prelude.{◌≡◌, map};
ghost use Rattle.ordered_json.specs.Words.{member_parts};
ghost use Rattle.machine_json.specs.NodeKinds.{children_of, kind_in, kind_of_members, kind_of_word, node_kind};

use ordered_json::{Member, OrderedJson, get, get_object, get_text};

/// What a node is, before its initial child or its history default is looked for.
#[derive(Clone, Copy, Debug, PartialEq, Eq)]
pub enum NodeKind {
    Atomic,
    Compound,
    Parallel,
    Final,
    History,
}

impl NodeKind {
    /// The kind of which `type` has the word.
    pub fn of_word(word: &str) -> Option<NodeKind>
        ensures { result ≡ kind_of_word word.now }
    {
        match word {
            "atomic" => Some(NodeKind::Atomic),
            "compound" => Some(NodeKind::Compound),
            "parallel" => Some(NodeKind::Parallel),
            "final" => Some(NodeKind::Final),
            "history" => Some(NodeKind::History),
            _ => None,
        }
    }

    /// The kind of the node that has these members. It looks at each member.
    pub fn of_members(members: &[Member]) -> NodeKind
        ensures { result ≡ kind_of_members (map member_parts members.now) }
    {
        match kind_in(members) {
            Some(kind) => kind,
            None if !children(members).is_empty() => NodeKind::Compound,
            None if get(members, "history").is_some() => NodeKind::History,
            None => NodeKind::Atomic,
        }
    }

    /// The kind of the node that a value is: atomic for a value that is no object.
    pub fn of(json: &OrderedJson) -> NodeKind
        ensures { result ≡ node_kind json.now }
    {
        match json.as_object() {
            Some(members) => NodeKind::of_members(members),
            None => NodeKind::Atomic,
        }
    }
}

/// The kind that `type` names, where it has one of the words.
fn kind_in(members: &[Member]) -> Option<NodeKind>
    ensures { result ≡ kind_in (map member_parts members.now) }
{
    NodeKind::of_word(get_text(members, "type")?.as_str())
}

/// The members of `states`: the keys of a node's children with their values.
pub fn children(members: &[Member]) -> &[Member]
    ensures { map member_parts result.now ≡ children_of (map member_parts members.now) }
{
    match get_object(members, "states") {
        Some(children) => children,
        None => &[],
    }
}
