//! The calls beside the definitions computed plainly, on small trees from a fixed seed.

use super::cases::{Numbers, random_history, random_nodes, random_rows, random_set};
use super::{
    Row, Transition, domain_of, entries_of, exits_of, goals_of, history_after, slow, tree_of,
};
use node_tree::{Recorded, Tree};
use std::alloc::Global;
use std::process::Abort;
use std::test::Fail;
use step_sets::{NodeSet, stays};

/// The rows of a tree and the tree.
#[derive(Drop)]
struct Case {
    rows: Vec<Row>,
    tree: Tree,
}

fn random_case(rt: &impl Abort, alloc: Global, numbers: &mut Numbers) -> Result<Case, Fail> {
    let rows = random_rows(alloc, numbers)?;
    let tree = tree_of(rt, alloc, &rows)?;
    Ok(Case { rows, tree })
}

fn domains_agree(rt: &impl Abort, case: &Case, transition: Transition) {
    let (source, targets, reenter) = transition;
    let got = domain_of(rt, &case.tree, transition);
    let want = slow::domain(&case.rows, source, targets, reenter, case.tree.len());
    assert_eq!(rt; got, want);
}

fn exits_agree(
    rt: &impl Abort,
    alloc: Global,
    case: &Case,
    active: &NodeSet,
    transition: Transition,
) -> Result<(), Fail> {
    let domain = domain_of(rt, &case.tree, transition);
    let exits = exits_of(rt, alloc, &case.tree, active, transition)?;
    for node in 0..case.tree.len() {
        let want = slow::is_exited(&case.rows, active.as_slice(), domain, node);
        assert_eq!(rt; exits.has(node), want);
    }
    Ok(())
}

fn goals_agree(
    rt: &impl Abort,
    alloc: Global,
    case: &Case,
    history: &Recorded,
    targets: &[u32],
) -> Result<(), Fail> {
    let got = goals_of(rt, alloc, &case.tree, history, targets)?;
    let want = slow::goals(alloc, &case.rows, history, targets)?;
    assert_eq!(rt; got.as_slice(), want.as_slice());
    Ok(())
}

fn entries_agree(
    rt: &impl Abort,
    alloc: Global,
    case: &Case,
    goals: &[u32],
    transition: Transition,
) -> Result<(), Fail> {
    let domain = domain_of(rt, &case.tree, transition);
    let entries = entries_of(rt, alloc, &case.tree, goals, transition)?;
    for node in 0..case.tree.len() {
        let want = slow::is_entered(&case.rows, goals, domain, node);
        assert_eq!(rt; entries.has(node), want);
    }
    Ok(())
}

fn histories_agree(
    rt: &impl Abort,
    alloc: Global,
    case: &Case,
    active: &NodeSet,
    exits: &NodeSet,
    old: &Recorded,
) -> Result<(), Fail> {
    let new = history_after(rt, alloc, &case.tree, active, exits, old)?;
    for node in 0..case.tree.len() {
        let got = slow::record_of(&new, node);
        if slow::is_recorded_now(&case.rows, exits.as_slice(), node) {
            let want = slow::remembered(alloc, &case.rows, active.as_slice(), node)?;
            assert_eq!(rt; got, Some(want.as_slice()));
        } else {
            assert_eq!(rt; got, slow::record_of(old, node));
        }
    }
    Ok(())
}

fn preemptions_agree(
    rt: &impl Abort,
    alloc: Global,
    case: &Case,
    numbers: &mut Numbers,
) -> Result<(), Fail> {
    let mut exits = Vec::new(alloc);
    for _ in 0..4 {
        exits.push(random_set(rt, alloc, &case.tree, numbers, 5)?)?;
    }
    let got = stays(alloc, &exits)?;
    let want = slow::stays(alloc, &exits)?;
    assert_eq!(rt; got.as_slice(), want.as_slice());
    Ok(())
}

fn sets_agree(rt: &impl Abort, alloc: Global, numbers: &mut Numbers) -> Result<(), Fail> {
    let case = random_case(rt, alloc, numbers)?;
    let count = case.tree.len();
    let targets = random_nodes(alloc, numbers, count)?;
    let transition = (numbers.below(count), targets.as_slice(), numbers.flip());
    domains_agree(rt, &case, transition);
    let active = random_set(rt, alloc, &case.tree, numbers, 2)?;
    exits_agree(rt, alloc, &case, &active, transition)?;
    entries_agree(rt, alloc, &case, &targets, transition)?;
    preemptions_agree(rt, alloc, &case, numbers)?;
    let old = random_history(rt, alloc, &case.tree, numbers)?;
    goals_agree(rt, alloc, &case, &old, &targets)?;
    let exits = random_set(rt, alloc, &case.tree, numbers, 2)?;
    histories_agree(rt, alloc, &case, &active, &exits, &old)
}

#[test]
fn the_calls_agree_with_the_definitions(rt: HostRuntime) -> Result<(), Fail> {
    let mut numbers = Numbers(7);
    for _ in 0..500 {
        sets_agree(&rt, rt.alloc(), &mut numbers)?;
    }
    Ok(())
}
