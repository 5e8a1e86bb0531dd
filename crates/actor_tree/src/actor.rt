//! What a forest has of one actor.

ghost use Rattle.std.specs.Prelude.{◌≡◌, ℕ, slice_get};
ghost use Rattle.std.specs.Option.{option_copied};
ghost use Rattle.office_types.specs.Records.{is_active_status, is_ready_actor};
ghost use Rattle.actor_tree.specs.Actors.{record_of};
ghost use Rattle.actor_tree.specs.Following.{head_number};

use office_types::{Item, Letter, Own, Status};
use std::collections::VecDeque;
use xs_data::Text;
use xs_model::Value;

/// An actor, its number apart.
#[derive(Debug, Drop)]
pub(crate) struct Actor {
    pub parent: Option<u64>,
    pub own: Option<Own>,
    pub item: Option<Item>,
    pub system: Option<Text>,
    pub status: Status,
    pub output: Value,
    pub error: Value,
    /// Ids and numbers, in the order in which the children were made.
    pub kids: Vec<(Text, u64)>,
    /// The letters that wait, the oldest first.
    pub mailbox: VecDeque<Letter>,
}

impl Actor {
    /// Whether it has not ended.
    pub(crate) fn is_active(&self) -> bool
        ensures { result ≡ is_active_status self.now.status }
    {
        match self.status {
            Status::Active => true,
            Status::Done | Status::Error | Status::Stopped => false,
        }
    }

    /// The letter that it takes next.
    pub(crate) fn head(&self) -> Option<&Letter>
        ensures { option_copied result ≡ slice_get self.now.mailbox.items 0 }
    {
        self.mailbox.front()
    }

    /// Whether it is ready.
    pub(crate) fn is_ready(&self) -> bool
        ensures { (number : ℕ) → result ≡ is_ready_actor (record_of number self.now) }
    {
        self.is_active() && self.own.is_some() && !self.mailbox.is_empty()
    }

    /// The number of the letter that it takes next, if it is ready.
    pub(crate) fn head_number(&self) -> Option<u64>
        ensures { (number : ℕ) → result ≡ head_number (record_of number self.now) }
    {
        if self.is_ready() {
            Some(self.head()?.number)
        } else {
            None
        }
    }
}
