//! When two own parts are the same.

ghost use Rattle.std.specs.Prelude.{◌≡◌, ◌↔◌, IsTrue};

use crate::outcome::{Own, Texts};
use node_tree::{Recorded, Targets};
use xs_model::same;

impl Own {
    /// Whether both are equal in every field. It takes no memory, and looks at each of their bytes at
    /// most once.
    pub fn same(&self, other: &Own) -> bool
        ensures { IsTrue result ↔ (self.now ≡ other.now) }
    {
        self.def == other.def
            && self.begun == other.begun
            && self.unnamed == other.unnamed
            && are_same_nodes(&self.nodes, &other.nodes)
            && are_same_texts(&self.children, &other.children)
            && are_same_records(&self.history, &other.history)
            && same(&self.context, &other.context)
    }
}

fn are_same_nodes(nodes: &Targets, others: &Targets) -> bool
    ensures { IsTrue result ↔ (nodes.now ≡ others.now) }
{
    nodes.as_slice() == others.as_slice()
}

fn are_same_texts(texts: &Texts, others: &Texts) -> bool
    ensures { IsTrue result ↔ (texts.now ≡ others.now) }
{
    let rest = others.as_slice();
    if texts.len() != rest.len() {
        return false;
    }
    for (place, text) in texts.as_slice().iter().enumerate() {
        if !text.same(rest[place].as_bytes()) {
            return false;
        }
    }
    true
}

fn are_same_records(records: &Recorded, others: &Recorded) -> bool
    ensures { IsTrue result ↔ (records.now ≡ others.now) }
{
    let rest = others.as_slice();
    if records.len() != rest.len() {
        return false;
    }
    for (place, (history, nodes)) in records.as_slice().iter().enumerate() {
        let (other_history, other_nodes) = &rest[place];
        if *history != *other_history || !are_same_nodes(nodes, other_nodes) {
            return false;
        }
    }
    true
}
