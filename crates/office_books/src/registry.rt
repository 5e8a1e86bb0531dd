//! The system names that are held.

ghost use Rattle.std.specs.Prelude.{◌≡◌, ◌+◌, ◌<◌, ◌≤◌, ℕ, List, [], None, length, IfOk, IfErr, OnOk, OnErr, IsOk};
ghost use Rattle.std.specs.List.{All};
ghost use Rattle.std.specs.Ordering.{nat_cmp};
ghost use Rattle.xs_model.specs.Rising.{key_cmp};
ghost use Rattle.office_types.specs.SystemNames.{holder_of, with_holder, without_holder};
ghost use Rattle.office_books.specs.Books.{holder_numbers};
ghost use Rattle.office_books.specs.KeyIndex.{IsKeyAt, IsKeyGap, IsKeyIndex, text_of_number};
ghost use Rattle.office_books.specs.Sorted.{RisesBy, IsAt, IsAbsentAt};

use std::alloc::{AllocError, Global};
use std::marker::Model;
use xs_data::Text;

/// The system names that are held, with the actors that hold them, and with room for more.
#[derive(Debug, Drop)]
pub struct Registry {
    /// By the actors' numbers.
    holders: Vec<(Text, u64)>,
    /// The same actors, by the bytes of their names.
    by_name: Vec<u64>,
}

impl Model for Registry {
    ghost use Rattle.office_books.specs.Books.{HeldNames, vec_room, with_room};
    ghost use Rattle.office_books.specs.KeyIndex.{IsKeyIndex};

    ghost Value = { HeldNames };

    ghost view = { λ b. with_room b.holders.items (vec_room b.holders) (vec_room b.by_name) };

    ghost invariant = { λ b. IsKeyIndex b.holders.items b.by_name.items };
}

impl Registry {
    /// An empty book. It takes no memory.
    pub fn new(alloc: Global) -> Registry
        ensures { result.names ≡ [] }
    {
        Registry {
            holders: Vec::new(alloc),
            by_name: Vec::new(alloc),
        }
    }

    /// Makes room, so that the next `more` calls of `hold` succeed.
    pub fn reserve(&mut self, more: u64) -> Result<(), AllocError>
        ensures names { self.new.names ≡ self.old.names }
        ensures room { OnOk result (more ≤ self.new.spare) }
        ensures keeps_room { self.old.spare ≤ self.new.spare }
    {
        self.holders.reserve(more as usize)?;
        self.by_name.reserve(more as usize)
    }

    /// Gives a free name to an actor that is newer than all holders. For want of memory it hands
    /// the name back. Its place among the names is found by halves, and those after it move.
    pub fn hold(&mut self, name: Text, actor: u64) -> Result<(), Text>
        requires free { holder_of name self.old.names ≡ None }
        requires newer { All (λ (holder : List ℕ × ℕ). holder.1 < actor) self.old.names }
        ensures ok { OnOk result (self.new.names ≡ with_holder self.old.names name actor) }
        ensures err { OnErr result (self.new.names ≡ self.old.names) }
        ensures handed_back { IfErr result (λ back. back ≡ name) }
        ensures succeeds { 0 < self.old.spare → IsOk result }
        ensures takes_one { self.old.spare ≤ self.new.spare + 1 }
    {
        if self.holders.reserve(1).is_err() || self.by_name.reserve(1).is_err() {
            return Err(name);
        }
        let place = gap(
            self.holders.as_slice(),
            self.by_name.as_slice(),
            name.as_bytes(),
        );
        self.holders.push_reserved((name, actor));
        let _ = self.by_name.insert(place, actor);
        Ok(())
    }

    /// Frees the name of an actor, if it holds one. It is found by halves, and those after it move.
    pub fn free(&mut self, actor: u64)
        ensures names { self.new.names ≡ without_holder self.old.names actor }
        ensures keeps_room { self.old.spare ≤ self.new.spare }
    {
        let Ok(place) = search(self.holders.as_slice(), actor) else {
            return;
        };
        let name = self.holders[place].0.as_bytes();
        let Ok(rank) = search_names(self.holders.as_slice(), self.by_name.as_slice(), name) else {
            unreachable!()
        };
        let _ = self.by_name.remove(rank);
        let _ = self.holders.remove(place);
    }

    /// Lends the names that are held, by the numbers of their actors.
    pub fn list(&self) -> &[(Text, u64)]
        ensures { result.now ≡ self.now.names }
    {
        self.holders.as_slice()
    }

    /// Which actor holds a name. It is found by halves.
    pub fn held(&self, name: &[u8]) -> Option<u64>
        ensures { result ≡ holder_of name.now self.now.names }
    {
        match search_names(self.holders.as_slice(), self.by_name.as_slice(), name) {
            Ok(rank) => Some(self.by_name[rank]),
            Err(_) => None,
        }
    }
}

/// Where an actor is among the holders, or where it would go.
fn search(holders: &[(Text, u64)], actor: u64) -> Result<usize, usize>
    requires { RisesBy nat_cmp (λ (holder : List ℕ × ℕ). holder.1) holders.now }
    ensures within { IfOk result (λ place. place < length holders.now) }
    ensures found { IfOk result (λ place. IsAt nat_cmp actor place (holder_numbers holders.now)) }
    ensures absent { IfErr result
        (λ place. IsAbsentAt nat_cmp actor place (holder_numbers holders.now)) }
{
    holders.binary_search_by(|holder| holder.1.cmp(&actor))
}

/// The name that an actor holds; the empty one where it holds none.
fn name_of(holders: &[(Text, u64)], actor: u64) -> &[u8]
    requires { RisesBy nat_cmp (λ (holder : List ℕ × ℕ). holder.1) holders.now }
    ensures { result.now ≡ text_of_number holders.now actor }
{
    match search(holders, actor) {
        Ok(place) => holders[place].0.as_bytes(),
        Err(_) => &[],
    }
}

/// Where a name is among those of `by_name`, or where it would go.
fn search_names(holders: &[(Text, u64)], by_name: &[u64], name: &[u8]) -> Result<usize, usize>
    requires numbers_rise { RisesBy nat_cmp (λ (holder : List ℕ × ℕ). holder.1) holders.now }
    requires keys_rise { RisesBy key_cmp (text_of_number holders.now) by_name.now }
    ensures within { IfOk result (λ rank. rank < length by_name.now) }
    ensures found { IfOk result (IsKeyAt name.now holders.now by_name.now) }
    ensures absent { IfErr result (IsKeyGap name.now holders.now by_name.now) }
{
    by_name.binary_search_by(|actor| name_of(holders, *actor).cmp(name))
}

/// Where a name that nobody holds would go among those of `by_name`.
fn gap(holders: &[(Text, u64)], by_name: &[u64], name: &[u8]) -> usize
    requires index { IsKeyIndex holders.now by_name.now }
    requires free { holder_of name.now holders.now ≡ None }
    ensures within { result ≤ length by_name.now }
    ensures absent { IsKeyGap name.now holders.now by_name.now result }
{
    let Err(rank) = search_names(holders, by_name, name) else {
        unreachable!()
    };
    rank
}
