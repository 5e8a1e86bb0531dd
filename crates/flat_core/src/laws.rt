//! Laws of the abstract office and of the line of a request. They are about the definitions by which the contracts speak.

ghost use Rattle.flat_core.specs.Laws.{ActorsFollowTheirLetters, CallersAreServedInOrder, NextActorHasLeastLetter, RequestIsUnique};

/// The state of each actor is a fold of its letters, in the order of their numbers, over its machine: no letter that it
/// was sent is lost, taken twice or taken before one that was sent earlier.
pub fn actors_follow_their_letters()
    ensures { ActorsFollowTheirLetters }
{}

/// Letters that one caller sends to one actor are taken in the order sent, each once, whatever other callers send in between.
pub fn callers_are_served_in_order()
    ensures { CallersAreServedInOrder }
{}

/// The next actor has the least head letter of all, and there is no next actor only where no letter waits.
pub fn next_actor_has_least_letter()
    ensures { NextActorHasLeastLetter }
{}

/// A line is the line of one request at most.
pub fn request_is_unique()
    ensures { RequestIsUnique }
{
    ordered_json::laws::meaning_is_unique();
}
