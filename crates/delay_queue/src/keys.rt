//! Numbers of timers, in the order of due, and by owner and id.

ghost use Rattle.std.specs.Prelude.{◌≡◌, ◌<◌, ℕ, [], ◌∷◌, length, filter, nat_eq, option_copied, IfOk, IfErr, IfSome, IfNone};
ghost use Rattle.xs_model.specs.Rising.{key_cmp};
ghost use Rattle.delay_queue.specs.Queue.{HaveTheirNumbers, timer_of, timers_in};
ghost use Rattle.delay_queue.specs.TimerKeys.{due_key_in, DueKeysRise, id_order, IsDueAt, IsDueGap};
ghost use Rattle.delay_queue.specs.TimerKeys.{IsNumberOf, IsOwnerAt, IsOwnerGap, NoneIsOf, owner_compared, owner_in, OwnerKeysRise};

use office_books::Slots;
use office_types::Timer;
use std::cmp::Ordering;

/// Where what is due then, of this number, is among numbers in the order of due, or where it would
/// go.
pub(crate) fn search_due(
    store: &Slots<Timer>,
    numbers: &[u64],
    due: u64,
    order: u64,
) -> Result<usize, usize>
    requires numbered { HaveTheirNumbers store.now.items }
    requires rise { DueKeysRise (timers_in store.now.items) numbers.now }
    ensures within { IfOk result (λ place. place < length numbers.now) }
    ensures found { IfOk result (IsDueAt (timers_in store.now.items) numbers.now due order) }
    ensures absent { IfErr result (IsDueGap (timers_in store.now.items) numbers.now due order) }
{
    numbers.binary_search_by(|number| compare_due(store, *number, due, order))
}

/// Where what has this owner, id and number is among numbers by owner and id, or where it would go.
/// Of what has an id the number doesn't count.
pub(crate) fn search_owner(
    store: &Slots<Timer>,
    numbers: &[u64],
    owner: u64,
    id: Option<&[u8]>,
    order: u64,
) -> Result<usize, usize>
    requires numbered { HaveTheirNumbers store.now.items }
    requires rise { OwnerKeysRise (timers_in store.now.items) numbers.now }
    ensures within { IfOk result (λ place. place < length numbers.now) }
    ensures found { IfOk result
        (IsOwnerAt (timers_in store.now.items) numbers.now owner (option_copied id.entry) order) }
    ensures absent { IfErr result
        (IsOwnerGap (timers_in store.now.items) numbers.now owner (option_copied id.entry) order) }
{
    numbers.binary_search_by(|number| compare_owner(store, *number, owner, id, order))
}

/// The number of a timer of an owner, if it has one, among numbers by owner and id.
pub(crate) fn any_of(store: &Slots<Timer>, numbers: &[u64], owner: u64) -> Option<u64>
    requires numbered { HaveTheirNumbers store.now.items }
    requires rise { OwnerKeysRise (timers_in store.now.items) numbers.now }
    ensures some { IfSome result (IsNumberOf owner (timers_in store.now.items) numbers.now) }
    ensures none { IfNone result (NoneIsOf owner (timers_in store.now.items) numbers.now) }
{
    match numbers.binary_search_by(|number| owner_of(store, *number).cmp(&owner)) {
        Ok(place) => Some(numbers[place]),
        Err(_) => None,
    }
}

/// How many numbers, by owner and id, are those of timers of an owner.
pub(crate) fn count_owned(store: &Slots<Timer>, numbers: &[u64], owner: u64) -> usize
    requires numbered { HaveTheirNumbers store.now.items }
    requires rise { OwnerKeysRise (timers_in store.now.items) numbers.now }
    ensures { result
        ≡ length (filter (λ number. nat_eq (owner_in (timers_in store.now.items) number) owner)
        numbers.now) }
{
    let begin = numbers.partition_point(|number| owner_of(store, *number) < owner);
    let end = numbers.partition_point(|number| owner_of(store, *number) <= owner);
    end - begin
}

/// The timer of a number, found by halves.
pub(crate) fn find_timer(store: &Slots<Timer>, order: u64) -> Option<&Timer>
    requires { HaveTheirNumbers store.now.items }
    ensures { option_copied result ≡ timer_of order (timers_in store.now.items) }
{
    store.find(order)
}

/// The bytes of a timer's id.
pub(crate) fn id_of(timer: &Timer) -> Option<&[u8]>
    ensures { option_copied result ≡ timer.now.id }
{
    match &timer.id {
        Some(id) => Some(id.as_bytes()),
        None => None,
    }
}

/// How a timer's key stands to that of what is due then, of this number. A timer that isn't there has
/// the empty key, which is below all others.
fn compare_due(store: &Slots<Timer>, number: u64, due: u64, order: u64) -> Ordering
    requires { HaveTheirNumbers store.now.items }
    ensures { result ≡ key_cmp (due_key_in (timers_in store.now.items) number) (due ∷ order ∷ []) }
{
    match find_timer(store, number) {
        None => Ordering::Less,
        Some(timer) => timer.due.cmp(&due).then(timer.order.cmp(&order)),
    }
}

/// How a timer's key stands to that of what has this owner, id and number.
fn compare_owner(
    store: &Slots<Timer>,
    number: u64,
    owner: u64,
    id: Option<&[u8]>,
    order: u64,
) -> Ordering
    requires { HaveTheirNumbers store.now.items }
    ensures { result
        ≡ owner_compared (timers_in store.now.items) number owner (option_copied id.entry) order }
{
    match find_timer(store, number) {
        None => Ordering::Less,
        Some(timer) => timer
            .owner
            .cmp(&owner)
            .then(compare_ids(id_of(timer), timer.order, id, order)),
    }
}

/// The timers without an id stand before those with one, by their numbers.
fn compare_ids(id: Option<&[u8]>, order: u64, other_id: Option<&[u8]>, other: u64) -> Ordering
    ensures { result
        ≡ id_order (option_copied id.entry) order (option_copied other_id.entry) other }
{
    match (id, other_id) {
        (None, None) => order.cmp(&other),
        (None, Some(_)) => Ordering::Less,
        (Some(_), None) => Ordering::Greater,
        (Some(id), Some(other_id)) => id.cmp(other_id),
    }
}

/// The owner of a timer; 0 where there is none.
fn owner_of(store: &Slots<Timer>, number: u64) -> u64
    requires { HaveTheirNumbers store.now.items }
    ensures { result ≡ owner_in (timers_in store.now.items) number }
{
    find_timer(store, number).map_or(0, |timer| timer.owner)
}
