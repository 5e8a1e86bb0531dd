//! From a target text to the node that it leads to.

ghost use Rattle.std.specs.Prelude.{◌≡◌, ◌<◌, ◌≤◌, Some, [], ◌∷◌, length, drop, IfNone, IfSome, ◌==◌};
ghost use Rattle.std.specs.List.{position};
ghost use Rattle.node_tree.specs.Nodes.{parent_of};
ghost use Rattle.node_tree.specs.Targets.{down, ends_key, from_id, id_front, keys_after_dot, target_keys, target_of};

use crate::node::{DOT, HASH};
use crate::outline::Outline;

impl Outline {
    /// The node that a target text leads to from a source: `#id` is a node by its id, `#id.k.l` goes down
    /// from the longest id before a dot, `.k.l` down from the source, and `k.l` down from the source's
    /// parent, of which the root has none. It costs a look-up for each dot.
    pub fn resolve(&self, source: u32, target: &[u8]) -> Option<u32>
        requires { source < length self.now }
        ensures target { result ≡ target_of self.now source target.now }
        ensures inside { IfSome result (λ target. target < length self.now) }
    {
        match target {
            [HASH, text @ ..] => self.from_id(text),
            [DOT, keys @ ..] => self.down(source, keys),
            _ => self.down_beside(source, target),
        }
    }

    /// Down from the parent of a node by keys with dots between them.
    fn down_beside(&self, source: u32, keys: &[u8]) -> Option<u32>
        requires { source < length self.now }
        ensures led { result ≡ down self.now (parent_of self.now source) (target_keys keys.now) }
        ensures inside { IfSome result (λ n. n < length self.now) }
    {
        match self.parent(source) {
            Some(parent) => self.down(parent, keys),
            None => None,
        }
    }

    /// Down from the node under the longest id that ends the text or stands before a dot.
    fn from_id(&self, text: &[u8]) -> Option<u32>
        ensures led { result ≡ from_id self.now text.now }
        ensures inside { IfSome result (λ n. n < length self.now) }
    {
        for len in (0..text.len() + 1).rev() {
            if let Some(n) = self.id_front(text, len) {
                return self.down_after(n, &text[len..]);
            }
        }
        None
    }

    /// The node whose id is the first bytes of a text, where they end the text or stand before a dot.
    fn id_front(&self, text: &[u8], len: usize) -> Option<u32>
        requires { len ≤ length text.now }
        ensures node { result ≡ id_front self.now text.now len }
        ensures inside { IfSome result (λ n. n < length self.now) }
    {
        if ends_key(text, len) {
            self.by_id(&text[..len])
        } else {
            None
        }
    }

    /// Down from a node by the keys of a text that is empty or begins with a dot.
    fn down_after(&self, from: u32, text: &[u8]) -> Option<u32>
        requires { from < length self.now }
        ensures led { result ≡ down self.now (Some from) (keys_after_dot text.now) }
        ensures inside { IfSome result (λ n. n < length self.now) }
    {
        match text {
            [] => Some(from),
            [_, keys @ ..] => self.down(from, keys),
        }
    }

    /// Down from a node by keys with dots between them.
    fn down(&self, from: u32, keys: &[u8]) -> Option<u32>
        requires { from < length self.now }
        ensures led { result ≡ down self.now (Some from) (target_keys keys.now) }
        ensures inside { IfSome result (λ n. n < length self.now) }
    {
        let mut at = from;
        let mut rest = keys;
        while let Some((key, others)) = split_key(rest) {
            at = self.child(at, key)?;
            rest = others;
        }
        self.child(at, rest)
    }
}

/// The first key and what follows its dot, where there is a dot.
fn split_key(keys: &[u8]) -> Option<(&[u8], &[u8])>
    ensures none { IfNone result (target_keys keys.now ≡ keys.now ∷ []) }
    ensures some { IfSome result (λ parts.
        target_keys keys.now ≡ parts.0.now ∷ target_keys parts.1.now) }
    ensures shorter { IfSome result (λ parts. length parts.1.now < length keys.now) }
{
    let dot = first_dot(keys)?;
    Some((&keys[..dot], &keys[dot + 1..]))
}

/// Where the first dot of a text stands.
fn first_dot(text: &[u8]) -> Option<usize>
    ensures { result ≡ position (λ b. b == DOT) text.now }
{
    text.iter().position(|b| *b == DOT)
}

/// Whether a key ends at this place of a text: at its end, or before a dot.
fn ends_key(text: &[u8], at: usize) -> bool
    requires { at ≤ length text.now }
    ensures { result ≡ ends_key (drop at text.now) }
{
    at == text.len() || text[at] == DOT
}
