//! The numbers that are left, and the limits of what an office holds.

ghost use Rattle.std.specs.Prelude.{◌≡◌, ◌↔◌, ◌<◌, ◌≤◌, IsTrue, filter, length, sum_by};
ghost use Rattle.office_types.specs.ValidOffice.{HasNumbersLeft, IsGiven, IsNextNumber, IsWithinLimits};
ghost use Rattle.office_types.specs.Records.{is_active};

use office_types::{
    ActorRecord, Caller, MAX_ACTIVE_ACTORS, MAX_CALLERS, MAX_ENTRIES, MAX_LETTERS, MAX_MOMENT,
    MAX_NEXT_NUMBER, MAX_REPLIES, MAX_TIMERS, OfficeState, Status,
};

/// Whether a number was given before the next one.
pub(crate) fn is_given(next: u64, number: u64) -> bool
    ensures { IsTrue result ↔ IsGiven next number }
{
    0 < number && number < next
}

/// Whether the next numbers are ones that may come next.
pub(crate) fn has_numbers_left(state: &OfficeState) -> bool
    ensures { IsTrue result ↔ HasNumbersLeft state.now }
{
    is_next_number(state.next_actor)
        && is_next_number(state.next_letter)
        && is_next_number(state.next_timer)
}

fn is_next_number(number: u64) -> bool
    ensures { IsTrue result ↔ IsNextNumber number }
{
    0 < number && number <= MAX_NEXT_NUMBER
}

/// Whether the office holds no more than it may.
pub(crate) fn is_within_limits(state: &OfficeState) -> bool
    ensures { IsTrue result ↔ IsWithinLimits state.now }
{
    if !has_few_active(state.actors.as_slice()) {
        return false;
    }
    if !has_few_letters(state.actors.as_slice()) {
        return false;
    }
    if !has_few_replies(state.callers.as_slice()) {
        return false;
    }
    state.timers.len() as u64 <= MAX_TIMERS
        && state.callers.len() as u64 <= MAX_CALLERS
        && state.moment <= MAX_MOMENT
        && state.entries <= MAX_ENTRIES
}

fn has_few_active(actors: &[ActorRecord]) -> bool
    ensures { IsTrue result ↔ (length (filter is_active actors.now) ≤ MAX_ACTIVE_ACTORS) }
{
    let mut left = MAX_ACTIVE_ACTORS;
    for actor in actors {
        if is_active(actor) {
            if left == 0 {
                return false;
            }
            left -= 1;
        }
    }
    true
}

/// Whether an actor has not ended.
pub(crate) fn is_active(actor: &ActorRecord) -> bool
    ensures { result ≡ is_active actor.now }
{
    actor.status == Status::Active
}

fn has_few_letters(actors: &[ActorRecord]) -> bool
    ensures { IsTrue result ↔ (sum_by (λ actor. length actor.mailbox) actors.now ≤ MAX_LETTERS) }
{
    let mut left = MAX_LETTERS;
    for actor in actors {
        let waiting = actor.mailbox.len() as u64;
        if left < waiting {
            return false;
        }
        left -= waiting;
    }
    true
}

fn has_few_replies(callers: &[Caller]) -> bool
    ensures { IsTrue result ↔ (sum_by (λ caller. length caller.replies) callers.now ≤ MAX_REPLIES) }
{
    let mut left = MAX_REPLIES;
    for caller in callers {
        let kept = caller.replies.len() as u64;
        if left < kept {
            return false;
        }
        left -= kept;
    }
    true
}
