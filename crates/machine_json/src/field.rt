//! The fields of a node: their keys, and the nodes on which each may stand.

ghost use Rattle.std.specs.Prelude.{◌≡◌};
ghost use Rattle.machine_json.specs.Fields.{field_of, stands_on};

use crate::kind_word::NodeKind;

/// A field of a node.
#[derive(Clone, Copy, Debug)]
pub enum Field {
    Id,
    Version,
    Description,
    Meta,
    Type,
    Initial,
    Context,
    States,
    On,
    Always,
    After,
    Invoke,
    Entry,
    Exit,
    OnDone,
    Output,
    Tags,
    History,
    Target,
}

impl Field {
    /// The field that has the key.
    pub fn of_key(key: &str) -> Option<Field>
        ensures { result ≡ field_of key.now }
    {
        match key {
            "id" => Some(Field::Id),
            "version" => Some(Field::Version),
            "description" => Some(Field::Description),
            "meta" => Some(Field::Meta),
            "type" => Some(Field::Type),
            "initial" => Some(Field::Initial),
            "context" => Some(Field::Context),
            "states" => Some(Field::States),
            "on" => Some(Field::On),
            "always" => Some(Field::Always),
            "after" => Some(Field::After),
            "invoke" => Some(Field::Invoke),
            "entry" => Some(Field::Entry),
            "exit" => Some(Field::Exit),
            "onDone" => Some(Field::OnDone),
            "output" => Some(Field::Output),
            "tags" => Some(Field::Tags),
            "history" => Some(Field::History),
            "target" => Some(Field::Target),
            _ => None,
        }
    }

    /// Whether the field may stand on a node of this kind that is the root, or isn't.
    pub fn stands_on(self, is_root: bool, kind: NodeKind) -> bool
        ensures { result ≡ stands_on self is_root kind }
    {
        let is_active = matches!(
            kind,
            NodeKind::Atomic | NodeKind::Compound | NodeKind::Parallel
        );
        match self {
            Field::Id | Field::Description | Field::Meta | Field::Type => true,
            Field::Version | Field::Context => is_root,
            Field::Initial | Field::States => is_root || is_active,
            Field::On | Field::Always | Field::After | Field::Invoke => is_active,
            Field::Entry | Field::Exit | Field::Tags => !matches!(kind, NodeKind::History),
            Field::OnDone => !is_root && is_active,
            Field::Output => is_root || matches!(kind, NodeKind::Final),
            Field::History | Field::Target => matches!(kind, NodeKind::History),
        }
    }
}
