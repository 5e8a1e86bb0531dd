//! What the nodes of a tree are to each other, asked of each node by itself as the rules of
//! domains, of what is left and entered, and of history say.

use node_tree::{Kind, Tree};
use std::alloc::{AllocError, Global};

/// The parent and the kind of each node, in document order.
#[derive(Drop)]
pub(super) struct Nodes {
    pub count: u32,
    rows: Vec<(Option<u32>, Kind)>,
}

impl Nodes {
    pub fn of(alloc: Global, tree: &Tree) -> Result<Nodes, AllocError> {
        let count = tree.len();
        let mut rows = Vec::new(alloc);
        for node in 0..count {
            let row = tree.node(node);
            rows.push((row.parent, row.kind))?;
        }
        Ok(Nodes { count, rows })
    }

    pub fn parent(&self, node: u32) -> Option<u32> {
        self.rows.get(node as usize).and_then(|row| row.0)
    }

    pub fn kind(&self, node: u32) -> Kind {
        self.rows
            .get(node as usize)
            .map_or(Kind::Atomic, |row| row.1)
    }

    pub fn is_leaf(&self, node: u32) -> bool {
        matches!(self.kind(node), Kind::Atomic | Kind::Final)
    }

    fn is_history(&self, node: u32) -> bool {
        matches!(self.kind(node), Kind::Shallow { .. } | Kind::Deep { .. })
    }

    pub fn is_below(&self, low: u32, high: u32) -> bool {
        let mut node = low;
        for _ in 0..self.count {
            match self.parent(node) {
                None => return false,
                Some(above) if above == high => return true,
                Some(above) => node = above,
            }
        }
        false
    }

    fn is_within(&self, low: u32, high: u32) -> bool {
        low == high || self.is_below(low, high)
    }

    /// The node below which a transition with targets leaves and enters, or nothing for the whole
    /// tree.
    pub fn domain(&self, source: u32, targets: &[u32], reenter: bool) -> Option<u32> {
        if !reenter && targets.iter().all(|target| self.is_within(*target, source)) {
            return Some(source);
        }
        let mut innermost = None;
        for node in 0..self.count {
            let holds_all = targets.iter().all(|target| self.is_below(*target, node));
            if self.is_below(source, node) && holds_all {
                innermost = Some(node);
            }
        }
        match innermost {
            None if !reenter => Some(0),
            found => found,
        }
    }

    pub fn is_under(&self, node: u32, domain: Option<u32>) -> bool {
        match domain {
            Some(high) => self.is_below(node, high),
            None => true,
        }
    }

    /// The nodes that are entered below a domain for these goals, each by what it is to the goals
    /// and to its parent.
    pub fn entered(
        &self,
        alloc: Global,
        goals: &[u32],
        domain: Option<u32>,
    ) -> Result<Vec<u32>, AllocError> {
        let mut entered: Vec<u32> = Vec::new(alloc);
        for node in 0..self.count {
            let may_be = !self.is_history(node) && self.is_under(node, domain);
            let is_root = domain.is_none() && self.parent(node).is_none();
            let leads = goals.iter().any(|goal| self.is_within(*goal, node));
            let follows = match self.parent(node) {
                Some(above) if domain == Some(above) || entered.contains(&above) => {
                    self.goes_with(node, above, goals)
                }
                _ => false,
            };
            if may_be && (is_root || leads || follows) {
                entered.push(node)?;
            }
        }
        Ok(entered)
    }

    /// Whether a node is entered with its parent where no goal asks for it.
    fn goes_with(&self, node: u32, above: u32, goals: &[u32]) -> bool {
        match self.kind(above) {
            Kind::Parallel => true,
            Kind::Compound { initial } => {
                initial == node && !goals.iter().any(|goal| self.is_below(*goal, above))
            }
            _ => false,
        }
    }

    /// Of the active nodes those that a history node remembers.
    pub fn remembered(
        &self,
        alloc: Global,
        active: &[u32],
        history: u32,
    ) -> Result<Vec<u32>, AllocError> {
        let mut nodes = Vec::new(alloc);
        for node in 0..self.count {
            let is_meant = match (self.kind(history), self.parent(history)) {
                (Kind::Shallow { .. }, Some(above)) => self.parent(node) == Some(above),
                (Kind::Deep { .. }, Some(above)) => {
                    self.is_leaf(node) && self.is_below(node, above)
                }
                _ => false,
            };
            if is_meant && active.contains(&node) {
                nodes.push(node)?;
            }
        }
        Ok(nodes)
    }

    /// What a target that nothing is recorded for stands for.
    pub fn stand_in(&self, target: u32) -> u32 {
        match self.kind(target) {
            Kind::Shallow { default } | Kind::Deep { default } => {
                default.or(self.parent(target)).unwrap_or(target)
            }
            _ => target,
        }
    }

    /// The nodes that are done where these are active, by their children.
    pub fn done(&self, alloc: Global, active: &[u32]) -> Result<Vec<u32>, AllocError> {
        let mut done: Vec<u32> = Vec::new(alloc);
        for node in (0..self.count).rev() {
            let mut all = true;
            let mut ended = false;
            for child in 0..self.count {
                if self.parent(child) == Some(node) && !self.is_history(child) {
                    all = all && done.contains(&child);
                    let is_final = matches!(self.kind(child), Kind::Final);
                    ended = ended || (is_final && active.contains(&child));
                }
            }
            let is_done = match self.kind(node) {
                Kind::Final => true,
                Kind::Compound { .. } => ended,
                Kind::Parallel => all,
                _ => false,
            };
            if is_done {
                done.push(node)?;
            }
        }
        Ok(done)
    }
}
