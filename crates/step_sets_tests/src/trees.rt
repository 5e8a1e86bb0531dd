//! Tables of rows and target texts, with the answers that the rules give.

ghost use Rattle.std.specs.Prelude.{◌<◌, ◌^◌, IfOk, length};

use node_tree::{Kind, Node, NodeRows, NodeSet, Outline, OutlineFault, Tree, TreeFault};
use std::alloc::Global;
use std::process::Abort;
use std::test::Fail;
use xs_data::{Items, Text};

type Row<'a> = (Option<u32>, Kind, &'a str, &'a str);

const ATOMIC: Kind = Kind::Atomic;

const PARALLEL: Kind = Kind::Parallel;

const SHALLOW: Kind = Kind::Shallow { default: None };

const DEEP: Kind = Kind::Deep { default: None };

/// Two nested states with a history node of each kind, and a state beside them.
const NESTED: [Row<'static>; 8] = [
    (None, Kind::Compound { initial: 1 }, "", "h"),
    (Some(0), Kind::Compound { initial: 2 }, "a", "h.a"),
    (Some(1), Kind::Compound { initial: 3 }, "b", "h.a.b"),
    (Some(2), ATOMIC, "b1", "h.a.b.b1"),
    (Some(2), ATOMIC, "b2", "h.a.b.b2"),
    (Some(1), SHALLOW, "hs", "h.a.hs"),
    (Some(1), DEEP, "hd", "h.a.hd"),
    (Some(0), ATOMIC, "z", "h.z"),
];

/// Ids of their own, one of which looks like the path of another node.
const NAMED: [Row<'static>; 7] = [
    (None, PARALLEL, "", "m"),
    (Some(0), PARALLEL, "a", "m.a"),
    (Some(1), PARALLEL, "b", "x"),
    (Some(2), ATOMIC, "q", "y"),
    (Some(1), ATOMIC, "c", "m.a.b"),
    (Some(1), ATOMIC, "q", "m.a.q"),
    (Some(1), ATOMIC, "q", "second"),
];

/// A machine in the making: the history node 3 has no default yet, and the id `x` stands twice.
const OPEN: [Row<'static>; 5] = [
    (None, Kind::Compound { initial: 1 }, "", "m"),
    (Some(0), Kind::Compound { initial: 2 }, "a", "x"),
    (Some(1), ATOMIC, "b", "m.a.b"),
    (Some(1), DEEP, "h", "m.a.h"),
    (Some(0), ATOMIC, "c", "x"),
];

fn rows_of(rt: &impl Abort, alloc: Global, table: &[Row]) -> Result<NodeRows, Fail>
    ensures { IfOk result (λ rows. (0 < length rows) × (length rows < 2 ^ 32)) }
{
    let mut rows: NodeRows = Items::new(alloc);
    for (parent, kind, key, id) in table {
        let node = Node {
            parent: *parent,
            kind: *kind,
            key: Text::from_str(alloc, key)?,
            id: Text::from_str(alloc, id)?,
        };
        rows.push(node).map_err(|_| "out of memory")?;
    }
    assert!(rt; rows.len() > 0 && rows.len() < 4_294_967_296);
    Ok(rows)
}

fn built(rt: &impl Abort, alloc: Global, table: &[Row]) -> Result<Result<Tree, TreeFault>, Fail> {
    Ok(Tree::build(alloc, rows_of(rt, alloc, table)?))
}

/// Rows, and how many nodes the tree of them has, or its first fault.
const BUILT: [(&[Row<'static>], Result<u32, TreeFault>); 12] = [
    (&NESTED, Ok(8)),
    (&NAMED, Ok(7)),
    // The first row has no parent, and no other row has none.
    (&[(Some(0), ATOMIC, "", "r")], Err(TreeFault::NoNode(0))),
    (
        &[(None, ATOMIC, "", "r"), (None, ATOMIC, "", "s")],
        Err(TreeFault::NoNode(1)),
    ),
    // A parent is the row before or above it.
    (
        &[(None, PARALLEL, "", "r"), (Some(1), ATOMIC, "a", "s")],
        Err(TreeFault::NoNode(1)),
    ),
    (
        &[
            (None, PARALLEL, "", "r"),
            (Some(0), ATOMIC, "a", "s"),
            (Some(0), ATOMIC, "b", "t"),
            (Some(1), ATOMIC, "c", "u"),
        ],
        Err(TreeFault::NoNode(3)),
    ),
    // An initial child is a child, and not a descendant further down.
    (
        &[
            (None, Kind::Compound { initial: 2 }, "", "r"),
            (Some(0), PARALLEL, "a", "s"),
            (Some(1), ATOMIC, "b", "t"),
        ],
        Err(TreeFault::NoNode(0)),
    ),
    (
        &[(None, Kind::Compound { initial: 7 }, "", "r")],
        Err(TreeFault::NoNode(0)),
    ),
    // A history default is a row.
    (
        &[
            (None, PARALLEL, "", "r"),
            (Some(0), Kind::Deep { default: Some(2) }, "a", "s"),
        ],
        Err(TreeFault::NoNode(1)),
    ),
    (
        &[
            (None, PARALLEL, "", "r"),
            (Some(0), Kind::Shallow { default: Some(0) }, "a", "s"),
        ],
        Ok(2),
    ),
    // A repeated id is named only where each row is in its place.
    (
        &[
            (None, PARALLEL, "", "r"),
            (Some(0), ATOMIC, "a", "s"),
            (Some(0), ATOMIC, "b", "s"),
            (Some(0), ATOMIC, "c", "r"),
        ],
        Err(TreeFault::DoubleId(2)),
    ),
    (
        &[
            (None, PARALLEL, "", "r"),
            (Some(0), ATOMIC, "a", "r"),
            (Some(4), ATOMIC, "b", "s"),
        ],
        Err(TreeFault::NoNode(2)),
    ),
];

#[test]
fn a_tree_or_its_first_fault(rt: HostRuntime) -> Result<(), Fail> {
    for (table, wanted) in BUILT.iter() {
        let found = built(&rt, rt.alloc(), table)?.map(|tree| tree.len());
        assert!(rt; found == *wanted);
    }
    Ok(())
}

/// A source and a target text in `NESTED`, and what it leads to.
const IN_NESTED: [(u32, &str, Option<u32>); 18] = [
    (7, "#h.a.hs", Some(5)),
    (7, "#h.a.hd", Some(6)),
    (7, "#h", Some(0)),
    (1, "z", Some(7)),
    (3, "b2", Some(4)),
    (7, "a.b.b1", Some(3)),
    (1, ".b.b2", Some(4)),
    (0, ".a", Some(1)),
    (0, "a", None),
    (7, "b", None),
    (1, ".b.b3", None),
    (1, ".", None),
    (1, "", None),
    (1, "a.", None),
    (7, "#h.a.q", None),
    (7, "#q", None),
    (7, "#", None),
    (7, "##h", None),
];

/// The same in `NAMED`.
const IN_NAMED: [(u32, &str, Option<u32>); 7] = [
    // An id as a whole goes before a way down, and no shorter id is tried.
    (0, "#m.a.b", Some(4)),
    (0, "#m.a.b.q", None),
    (0, "#x.q", Some(3)),
    (0, "#m.a.c", Some(4)),
    (0, "#m.a.q", Some(5)),
    // The first child with a key is the one.
    (1, ".q", Some(5)),
    (0, ".a.b.q", Some(3)),
];

fn assert_targets(
    rt: &impl Abort,
    tree: &Tree,
    targets: &[(u32, &str, Option<u32>)],
) -> Result<(), Fail> {
    for (source, target, wanted) in targets {
        assert!(rt; *source < tree.len());
        assert!(rt;
            tree.resolve(*source, target.as_bytes()) == *wanted,
            "{target:?}"
        );
    }
    Ok(())
}

#[test]
fn targets_lead_to_nodes(rt: HostRuntime) -> Result<(), Fail> {
    let alloc = rt.alloc();
    assert_targets(&rt, &built(&rt, alloc, &NESTED)??, &IN_NESTED)?;
    assert_targets(&rt, &built(&rt, alloc, &NAMED)??, &IN_NAMED)
}

/// Whether the nodes of `NESTED` are found by their ids and by their keys.
fn are_found(tree: &Tree) -> bool {
    tree.len() == 8
        && tree.node(4).parent == Some(2)
        && tree.by_id(b"h.a.b") == Some(2)
        && tree.by_id(b"h.b").is_none()
        && tree.child(1, b"hd") == Some(6)
        && tree.child(0, b"hd").is_none()
}

/// Two nodes of `NESTED`, and whether the first stands below the second.
const BELOW: [(u32, u32, bool); 6] = [
    (3, 0, true),
    (3, 1, true),
    (1, 3, false),
    (1, 1, false),
    (7, 1, false),
    (6, 2, false),
];

#[test]
fn looks_nodes_up(rt: HostRuntime) -> Result<(), Fail> {
    let nested = built(&rt, rt.alloc(), &NESTED)??;
    assert!(rt; are_found(&nested));
    for (low, high, wanted) in BELOW.iter() {
        assert!(rt; *low < nested.len() && *high < nested.len());
        assert!(rt; nested.below(*low, *high) == *wanted, "{low} {high}");
    }
    Ok(())
}

/// Whether `OPEN` names its nodes: the first node with an id is the one, and the first row that repeats
/// an id is named.
fn has_names(outline: &Outline) -> bool {
    outline.len() == 5
        && outline.by_id(b"x") == Some(1)
        && outline.resolve(4, b"#x.b") == Some(2)
        && outline.first_repeated() == Some(4)
}

#[test]
fn an_outline_names_its_nodes(rt: HostRuntime) -> Result<(), Fail> {
    let alloc = rt.alloc();
    let mut outline = Outline::build(alloc, rows_of(&rt, alloc, &OPEN)?)?;
    assert!(rt; has_names(&outline));
    assert!(rt; outline.len() == 5 && outline.node(3).kind.is_history());
    outline.set_default(3, 2);
    assert!(rt; outline.node(3).kind == Kind::Deep { default: Some(2) });
    Ok(())
}

#[test]
fn an_outline_becomes_a_tree(rt: HostRuntime) -> Result<(), Fail> {
    let alloc = rt.alloc();
    let mut nested = Outline::build(alloc, rows_of(&rt, alloc, &NESTED)?)?;
    assert!(rt; nested.len() == 8 && nested.node(5).kind.is_history());
    nested.set_default(5, 2);
    assert!(rt; nested.first_repeated().is_none());
    let tree = nested.into_tree();
    assert!(rt; tree.len() == 8 && tree.node(5).kind == Kind::Shallow { default: Some(2) });
    Ok(())
}

/// Two rows of which neither is above the other.
const MISPLACED: [Row<'static>; 2] = [(None, ATOMIC, "", "r"), (None, ATOMIC, "", "s")];

#[test]
fn an_outline_has_its_rows_in_their_places(rt: HostRuntime) -> Result<(), Fail> {
    let alloc = rt.alloc();
    let outline = Outline::build(alloc, rows_of(&rt, alloc, &MISPLACED)?);
    assert!(rt; matches!(outline, Err(OutlineFault::NoNode(1))));
    Ok(())
}

/// Whether the set has 2, and neither 3 nor 5.
fn has_its_nodes(set: &NodeSet) -> bool {
    set.has(2) && !set.has(3) && !set.has(5)
}

#[test]
fn sets_of_nodes(rt: HostRuntime) -> Result<(), Fail> {
    let alloc = rt.alloc();
    let tree = built(&rt, alloc, &NESTED)??;
    assert!(rt; tree.len() == 8);
    let set = NodeSet::of(alloc, &tree, &[0, 1, 2, 4])?;
    assert!(rt; has_its_nodes(&set));
    assert!(rt; set.list(alloc)?.as_slice() == [0, 1, 2, 4].as_slice());
    let none = NodeSet::of(alloc, &tree, &[])?;
    assert!(rt; !none.has(0) && none.as_slice().is_empty());
    Ok(())
}

/// Faults as they are printed.
const PRINTED: [(TreeFault, &str); 3] = [
    (
        TreeFault::NoNode(3),
        "row 3 is out of place or names a node that is not there",
    ),
    (TreeFault::DoubleId(5), "row 5 has the id of an earlier row"),
    (TreeFault::Memory, "out of memory"),
];

#[test]
fn faults_are_printed(rt: HostRuntime) -> Result<(), Fail> {
    for (fault, text) in PRINTED.iter() {
        assert!(rt;
            format!(in rt.alloc(); "{fault}")?.as_str() == *text,
            "{text}"
        );
    }
    Ok(())
}
