//! A tournament of head letters: of each two neighbours the one with the earlier letter goes on, and the winner has the
//! earliest of all. Where one entrant changes, only those on its way up play again.

ghost use Rattle.std.specs.Prelude.{◌≡◌, ◌*◌, ◌^◌, ◌<◌, ◌↔◌, IfOk, IsTrue, None, length, not, replicate, slice_index_or, slice_set, true};
ghost use Rattle.actor_tree.specs.Tournament.{IsFirstBelow, IsFirstOf, IsPlayedBut, earlier_entrant, is_listed, node_at};

use std::alloc::{AllocError, Global};
use std::marker::Model;

/// An actor with the number of its head letter.
#[derive(Clone, Copy, Debug)]
pub(crate) struct Entrant {
    pub actor: u64,
    pub letter: u64,
}

/// Places for entrants, some of them empty, and the winners above them.
#[derive(Debug, Drop)]
pub(crate) struct Tournament {
    /// Node `n` is the earlier of nodes `2 * n` and `2 * n + 1`, so that node 1 is above all. There
    /// is no node 0.
    winners: Vec<Option<Entrant>>,
    /// The nodes from the number of places on.
    places: Vec<Option<Entrant>>,
}

impl Model for Tournament {
    ghost use Rattle.std.specs.Prelude.{List, Option};
    ghost use Rattle.actor_tree.specs.declared.tournament.Entrant.{Entrant};
    ghost use Rattle.actor_tree.specs.Tournament.{IsPlayedBut};

    ghost Value = { List (Option Entrant) };

    ghost view = { λ t. t.places.items };

    ghost invariant = { λ t. IsPlayedBut 0 t.winners.items t.places.items };
}

impl Tournament {
    /// So many empty places.
    pub(crate) fn new(alloc: Global, count: usize) -> Result<Tournament, AllocError>
        ensures { IfOk result (λ made. made ≡ replicate count None) }
    {
        let mut winners = Vec::new(alloc);
        winners.resize(count, None)?;
        let mut places = Vec::new(alloc);
        places.resize(count, None)?;
        Ok(Tournament { winners, places })
    }

    /// How many places there are.
    pub(crate) fn count(&self) -> usize
        ensures { result ≡ length self.now }
    {
        self.places.len()
    }

    /// Puts an entrant in a place, or empties it. It looks at the nodes above the place.
    pub(crate) fn set(&mut self, place: usize, entrant: Option<Entrant>)
        requires { place < length self.old }
        ensures places { self.new ≡ slice_set self.old place entrant }
        ensures fits { length self.new < 2 ^ 63 }
    {
        self.places[place] = entrant;
        let node = (self.winners.len() + place) / 2;
        play_up(self.winners.as_mut_slice(), self.places.as_slice(), node);
    }

    /// The entrant with the earliest letter.
    pub(crate) fn first(&self) -> Option<Entrant>
        ensures { IsFirstOf (λ _. true) self.now result }
    {
        if self.places.is_empty() {
            return None;
        }
        node_at(self.winners.as_slice(), self.places.as_slice(), 1)
    }

    /// The entrant with the earliest letter of those whose actors aren't listed. It goes down below
    /// listed actors alone, so it looks at the nodes above each of them at most.
    pub(crate) fn first_but(&self, listed: &[u64]) -> Option<Entrant>
        ensures { IsFirstOf (λ entrant. not (is_listed listed.now entrant)) self.now result }
    {
        if self.places.is_empty() {
            return None;
        }
        first_below(self.winners.as_slice(), self.places.as_slice(), listed, 1)
    }
}

/// Plays a node again, and those above it.
fn play_up(winners: &mut [Option<Entrant>], places: &[Option<Entrant>], node: usize)
    requires played { IsPlayedBut node winners.old places.now }
    requires within { node < length winners.old }
    ensures { IsPlayedBut 0 winners.new places.now }
{
    let mut at = node;
    while at > 0 {
        let left = node_at(winners, places, 2 * at);
        let right = node_at(winners, places, 2 * at + 1);
        winners[at] = earlier_entrant(left, right);
        at /= 2;
    }
}

/// The entrant with the earliest letter of those below a node whose actors aren't listed.
fn first_below(
    winners: &[Option<Entrant>],
    places: &[Option<Entrant>],
    listed: &[u64],
    node: usize,
) -> Option<Entrant>
    requires played { IsPlayedBut 0 winners.now places.now }
    requires above { 0 < node }
    requires within { node < 2 * length places.now }
    ensures { IsFirstBelow (λ entrant. not (is_listed listed.now entrant)) node winners.now
        places.now result }
{
    let first = node_at(winners, places, node)?;
    if !is_listed(listed, first) {
        return Some(first);
    }
    if node >= winners.len() {
        return None;
    }
    let left = first_below(winners, places, listed, 2 * node);
    let right = first_below(winners, places, listed, 2 * node + 1);
    earlier_entrant(left, right)
}

/// A node above the places, or one of these.
fn node_at(winners: &[Option<Entrant>], places: &[Option<Entrant>], node: usize) -> Option<Entrant>
    requires same_count { length winners.now ≡ length places.now }
    requires within { node < 2 * length places.now }
    ensures { result ≡ node_at winners.now places.now node }
{
    if node < winners.len() {
        winners[node]
    } else {
        places[node - winners.len()]
    }
}

/// The one with the earlier letter.
fn earlier_entrant(left: Option<Entrant>, right: Option<Entrant>) -> Option<Entrant>
    ensures { result ≡ earlier_entrant left right }
{
    match (left, right) {
        (None, other) => other,
        (Some(entrant), None) => Some(entrant),
        (Some(entrant), Some(other)) => {
            if other.letter < entrant.letter {
                Some(other)
            } else {
                Some(entrant)
            }
        }
    }
}

/// Whether the entrant's actor is listed.
fn is_listed(listed: &[u64], entrant: Entrant) -> bool
    ensures { result ≡ is_listed listed.now entrant }
{
    listed.iter().any(|actor| entrant.actor == *actor)
}
