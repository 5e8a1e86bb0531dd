//! What a new actor brings into the books of an office, and a new timer.

ghost use Rattle.std.specs.Prelude.{◌≡◌, ◌+◌, ◌<◌, ◌≤◌, ℕ, List, None, IfSome, IsSome};
ghost use Rattle.std.specs.List.{All};
ghost use Rattle.office_types.specs.declared.office.Item.{Item};
ghost use Rattle.office_types.specs.declared.office.Timer.{Timer};
ghost use Rattle.office_types.specs.SystemNames.{holder_of};
ghost use Rattle.office_types.specs.Timers.{with_scheduled};
ghost use Rattle.actor_tree.specs.Books.{and_holder, and_item};

use delay_queue::Timers;
use office_books::{Items, Registry};
use office_types::{Item, Timer};
use xs_data::Text;

/// Gives a new actor its name, if it has one, where there is room.
pub(crate) fn hold_name(names: &mut Registry, name: Option<Text>, actor: u64)
    requires room { IsSome name → 0 < names.old.spare }
    requires free { IfSome name (λ name. holder_of name names.old.names ≡ None) }
    requires newer { All (λ (holder : List ℕ × ℕ). holder.1 < actor) names.old.names }
    ensures names { names.new.names ≡ and_holder names.old.names name actor }
    ensures takes_one { names.old.spare ≤ names.new.spare + 1 }
{
    let Some(name) = name else {
        return;
    };
    if names.hold(name, actor).is_err() {
        unreachable!()
    }
}

/// Opens the item of a new actor, if it has one, where there is room.
pub(crate) fn open_new_item(items: &mut Items, item: Option<Item>)
    requires room { IsSome item → 0 < items.old.spare }
    requires newer { IfSome item
        (λ item. All (λ (other : Item). other.actor < item.actor) items.old.items) }
    ensures items { items.new.items ≡ and_item items.old.items item }
    ensures takes_one { items.old.spare ≤ items.new.spare + 1 }
{
    let Some(item) = item else {
        return;
    };
    if items.open(item).is_err() {
        unreachable!()
    }
}

/// Schedules a timer that is newer than all others, where there is room.
pub(crate) fn add_timer(timers: &mut Timers, timer: Timer)
    requires room { 0 < timers.old.spare }
    requires newer { All (λ (other : Timer). other.order < timer.order) timers.old.timers }
    ensures timers { timers.new.timers ≡ with_scheduled timers.old.timers timer }
    ensures takes_one { timers.old.spare ≤ timers.new.spare + 1 }
{
    if timers.schedule(timer).is_err() {
        unreachable!()
    }
}
