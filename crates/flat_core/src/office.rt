//! The office in memory: what it decides, which actor is next, and the step that it takes.

ghost use Rattle.std.specs.Prelude.{◌≡◌, ◌+◌, ◌-◌, ◌<◌, ℕ, IsTrue, IfOk, IfErr, Some, None, find, position, length, slice_get, nat_eq, nat_lt, if◌then◌else◌};
ghost use Rattle.std.specs.Option.{option_copied};
ghost use Rattle.std.specs.VecDeque.{deque_capacity};
ghost use Rattle.flat_core.specs.Flat.{state_after};
ghost use Rattle.flat_core.specs.Office.{empty_office, start_decision, send_decision, machine_of, is_given, with_new, with_letter, with_step, first_ready, value_of, shown_state, next_state};
ghost use Rattle.flat_core.specs.Plan.{Fits, FitsBegin, HasLetterRoom, office_after_plan, reply_of, KeepsOffice, IsPlanFor, IsDecided, IsStep, IsRefusedStep};
ghost use Rattle.flat_core.specs.Shown.{shown_as, IsTextShown};
ghost use Rattle.flat_core.specs.View.{without_first, state_behind};

use crate::flat::{FlatMachine, FlatMachines};
use crate::request::{
    Ask, Reply, Request, STATUS_ACCEPTED, STATUS_CREATED, STATUS_NOT_FOUND, STATUS_OK, Word,
};
use std::alloc::{AllocError, Global};
use std::collections::VecDeque;
use std::marker::Model;
use thiserror::Error;
use xs_data::Text;

/// What a letter brings to an actor.
#[derive(Debug, Drop)]
pub enum Event {
    /// The first letter of an actor, with which it enters its machine's initial state.
    Init,
    /// An event of this type.
    Sent(Text),
}

/// A ready actor, and the number of its head letter.
#[derive(Clone, Copy, Debug, PartialEq, Eq)]
pub struct Claim {
    pub actor: u64,
    pub letter: u64,
}

/// What is shown of an actor.
#[derive(Clone, Copy, Debug, PartialEq, Eq)]
pub enum FlatValue<'a> {
    /// No actor has this number.
    Never,
    /// The actor waits for its first step.
    Waiting,
    /// The key of the actor's state.
    Key(&'a [u8]),
}

/// Why a request isn't decided. The core is as it was.
#[derive(Clone, Copy, Debug, PartialEq, Eq, Error)]
pub enum Refused {
    #[error("out of memory")]
    Memory,
}

/// Why an actor isn't stepped. The core is as it was.
#[derive(Clone, Copy, Debug, PartialEq, Eq, Error)]
pub enum StepRefused {
    /// The actor's head letter is another one than the claimed one, or 0 where it has none.
    #[error("letter {0} is at the head")]
    Gone(u64),
    #[error("out of memory")]
    Memory,
}

/// What a plan does to the office.
#[derive(Debug, Drop)]
enum Change {
    Nothing,
    Begin { machine: usize },
    Post { actor: u64, event: Text },
    Step { actor: u64, state: Option<u32> },
}

/// A decision or a step that is made and not yet carried out. It fits the core that made it as long as that stays as it is.
#[derive(Debug, Drop)]
pub struct Plan {
    change: Change,
    reply: Reply,
}

/// An actor's machine, by its place, and the place of the state that it is in.
#[derive(Debug, Drop)]
struct FlatActor {
    machine: usize,
    state: Option<u32>,
}

/// A letter in the queue: its number, the actor that it is for, and what it brings.
#[derive(Debug, Drop)]
struct QueuedLetter {
    number: u64,
    actor: u64,
    event: Event,
}

/// The office in memory: its machines, its actors and the letters that wait.
///
/// The letters stand in one queue in the order of their numbers, so the next actor is at its front. Each call takes a time
/// that doesn't grow with the office, but for the step of an actor whose letter isn't the first of all, which looks for it.
#[derive(Debug, Drop)]
pub struct Core {
    alloc: Global,
    machines: FlatMachines,
    flat_actors: Vec<FlatActor>,
    queue: VecDeque<QueuedLetter>,
    next_letter: u64,
}

impl Model for Core {
    ghost use Rattle.std.specs.Prelude.{◌-◌, length, vec_len};
    ghost use Rattle.std.specs.Vec.{vec_capacity};
    ghost use Rattle.std.specs.VecDeque.{deque_len, deque_capacity};
    ghost use Rattle.flat_core.specs.View.{Kept, actors_from, IsQueue};

    ghost Value = { Kept };

    ghost view = { λ core. record {
      machines = core.machines;
      office = record {
        actors = actors_from 1 core.flat_actors.items core.queue.items;
        next_letter = core.next_letter;
      };
      actor_room = vec_capacity core.flat_actors - vec_len core.flat_actors;
      letter_room = deque_capacity core.queue - deque_len core.queue;
    } };

    ghost invariant = { λ core.
        IsQueue (length core.flat_actors.items) 1 core.next_letter core.queue.items };
}

impl Core {
    /// An office without actors. It takes no memory.
    pub fn new(alloc: Global, machines: FlatMachines) -> Core
        ensures machines { result.machines ≡ machines }
        ensures office { result.office ≡ empty_office }
    {
        Core {
            alloc,
            machines,
            flat_actors: Vec::new(alloc),
            queue: VecDeque::new(alloc),
            next_letter: 1,
        }
    }

    /// What a request comes to. It makes the room that carrying it out needs. Where no number is left for
    /// another letter, the answer is want of memory.
    pub fn decide(&mut self, request: &Request) -> Result<Plan, Refused>
        ensures stays { KeepsOffice self.old self.new }
        ensures ok { IfOk result (IsDecided self.new request.now.ask) }
    {
        match &request.ask {
            Ask::Start { machine } => self.decide_start(machine.as_bytes()),
            Ask::Send { actor, event } => self.decide_send(*actor, event),
        }
    }

    /// The step of a claimed actor: it takes its head letter and moves by the letter's event. It takes no memory.
    pub fn plan_step(&mut self, claim: &Claim) -> Result<Plan, StepRefused>
        ensures stays { KeepsOffice self.old self.new }
        ensures ok { IfOk result (IsStep self.new claim.now) }
        ensures refused { IfErr result (IsRefusedStep self.old claim.now) }
    {
        let Some(letter) = first_letter(&self.queue, claim.actor) else {
            return Err(StepRefused::Gone(0));
        };
        if letter.number != claim.letter {
            return Err(StepRefused::Gone(letter.number));
        }
        let state = state_behind(
            &self.machines,
            self.flat_actors.as_slice(),
            claim.actor,
            &letter.event,
        );
        Ok(Plan {
            change: Change::Step {
                actor: claim.actor,
                state,
            },
            reply: Reply {
                status: STATUS_OK,
                word: Word::Letter,
                value: claim.letter,
            },
        })
    }

    /// Does what was planned, and answers its reply. It takes no memory.
    pub fn carry_out(&mut self, plan: Plan) -> Reply
        requires { Fits self.old plan }
        ensures machines { self.new.machines ≡ self.old.machines }
        ensures office { self.new.office ≡ office_after_plan self.old.office plan }
        ensures reply { result ≡ reply_of plan }
    {
        let Plan { change, reply } = plan;
        match change {
            Change::Nothing => {}
            Change::Begin { machine } => self.begin(machine),
            Change::Post { actor, event } => self.post(actor, event),
            Change::Step { actor, state } => self.step(actor, state),
        }
        reply
    }

    /// The actor with the least head letter of all, if a letter waits. It takes no memory.
    pub fn first_ready(&self) -> Option<Claim>
        ensures { result ≡ first_ready self.now.office }
    {
        let letter = oldest(&self.queue)?;
        Some(Claim {
            actor: letter.actor,
            letter: letter.number,
        })
    }

    /// What is shown of an actor. It takes no memory.
    pub fn value(&self, actor: u64) -> FlatValue<'_>
        ensures shown { shown_as result ≡ value_of self.now.machines self.now.office actor }
        ensures text { IsTextShown result }
    {
        let Some(flat_actor) = flat_actor_of(self.flat_actors.as_slice(), actor) else {
            return FlatValue::Never;
        };
        shown_state(self.machines.get(flat_actor.machine), flat_actor.state)
    }

    /// The decision on a start: a new actor, or there is no such machine.
    fn decide_start(&mut self, id: &[u8]) -> Result<Plan, Refused>
        ensures stays { KeepsOffice self.old self.new }
        ensures ok { IfOk result (IsPlanFor self.new
            (start_decision self.old.office (machine_of self.old.machines id.now))) }
    {
        let Some(machine) = machine_with(self.machines.as_slice(), id) else {
            return Ok(Plan {
                change: Change::Nothing,
                reply: Reply {
                    status: STATUS_NOT_FOUND,
                    word: Word::Machine,
                    value: 0,
                },
            });
        };
        self.make_letter_room()?;
        let value = self.make_actor_room()?;
        Ok(Plan {
            change: Change::Begin { machine },
            reply: Reply {
                status: STATUS_CREATED,
                word: Word::Actor,
                value,
            },
        })
    }

    /// The decision on a send: a new letter, or there is no such actor.
    fn decide_send(&mut self, actor: u64, event: &Text) -> Result<Plan, Refused>
        ensures stays { KeepsOffice self.old self.new }
        ensures ok { IfOk result (IsPlanFor self.new
            (send_decision self.old.office actor event.now)) }
    {
        if !self.has_actor(actor) {
            return Ok(Plan {
                change: Change::Nothing,
                reply: Reply {
                    status: STATUS_NOT_FOUND,
                    word: Word::Actor,
                    value: actor,
                },
            });
        }
        let event = event.copy(self.alloc)?;
        let value = self.make_letter_room()?;
        Ok(Plan {
            change: Change::Post { actor, event },
            reply: Reply {
                status: STATUS_ACCEPTED,
                word: Word::Letter,
                value,
            },
        })
    }

    /// Whether an actor has this number.
    fn has_actor(&self, actor: u64) -> bool
        ensures { result ≡ is_given self.now.office actor }
    {
        0 < actor && actor <= self.flat_actors.len() as u64
    }

    /// Room for one more actor, and its number.
    fn make_actor_room(&mut self) -> Result<u64, Refused>
        ensures stays { KeepsOffice self.old self.new }
        ensures letters { self.new.letter_room ≡ self.old.letter_room }
        ensures ok { IfOk result (λ number.
            (0 < self.new.actor_room) × (number ≡ length self.new.office.actors + 1)) }
    {
        self.flat_actors.reserve(1)?;
        (self.flat_actors.len() as u64)
            .checked_add(1)
            .ok_or(Refused::Memory)
    }

    /// Room for one more letter, and its number.
    fn make_letter_room(&mut self) -> Result<u64, Refused>
        ensures stays { KeepsOffice self.old self.new }
        ensures actors { self.new.actor_room ≡ self.old.actor_room }
        ensures ok { IfOk result (λ number.
            HasLetterRoom self.new × (number ≡ self.new.office.next_letter)) }
    {
        if self.next_letter == u64::MAX {
            return Err(Refused::Memory);
        }
        self.queue.reserve(1)?;
        Ok(self.next_letter)
    }

    /// Adds an actor of the machine, with the letter that begins it.
    fn begin(&mut self, machine: usize)
        requires { FitsBegin self.old }
        ensures machines { self.new.machines ≡ self.old.machines }
        ensures office { self.new.office ≡ with_new self.old.office machine }
    {
        let number = self.next_letter;
        let actor = self.flat_actors.len() as u64 + 1;
        let letter = QueuedLetter {
            number,
            actor,
            event: Event::Init,
        };
        self.flat_actors
            .push(FlatActor {
                machine,
                state: None,
            })
            .unwrap();
        self.queue.push_back(letter).unwrap();
        self.next_letter = number + 1;
    }

    /// Adds a letter to an actor.
    fn post(&mut self, actor: u64, event: Text)
        requires given { IsTrue (is_given self.old.office actor) }
        requires room { HasLetterRoom self.old }
        ensures machines { self.new.machines ≡ self.old.machines }
        ensures office { self.new.office ≡ with_letter self.old.office actor event }
    {
        let letter = QueuedLetter {
            number: self.next_letter,
            actor,
            event: Event::Sent(event),
        };
        self.queue.push_back(letter).unwrap();
        self.next_letter += 1;
    }

    /// Takes the head letter of an actor, and leaves it in this state.
    fn step(&mut self, actor: u64, state: Option<u32>)
        requires { IsTrue (is_given self.old.office actor) }
        ensures machines { self.new.machines ≡ self.old.machines }
        ensures office { self.new.office ≡ with_step self.old.office actor state }
    {
        take_letter(&mut self.queue, actor);
        let flat_actor = &mut self.flat_actors[actor as usize - 1];
        flat_actor.state = state;
    }
}

impl From<AllocError> for Refused {
    ghost use Rattle.flat_core.specs.declared.office.Refused.TheVariants.{Memory};

    ghost from_gives = { λ _ refused. refused ≡ Memory };

    fn from(_error: AllocError) -> Refused {
        Refused::Memory
    }
}

/// The place of the machine with this id.
fn machine_with(machines: &[FlatMachine], id: &[u8]) -> Option<usize>
    ensures { result ≡ machine_of machines.now id.now }
{
    machines
        .iter()
        .position(|machine| machine.id.as_bytes() == id)
}

/// The actor of this number.
fn flat_actor_of(flat_actors: &[FlatActor], actor: u64) -> Option<&FlatActor>
    ensures { option_copied result
        ≡ (if nat_lt 0 actor then slice_get flat_actors.now (actor - 1) else None) }
{
    if actor == 0 {
        return None;
    }
    flat_actors.get(actor as usize - 1)
}

/// What is shown of an actor of this machine in this state.
fn shown_state(machine: Option<&FlatMachine>, state: Option<u32>) -> FlatValue<'_>
    ensures shown { shown_as result ≡ shown_state (option_copied machine.entry) state }
    ensures text { IsTextShown result }
{
    let Some(place) = state else {
        return FlatValue::Waiting;
    };
    let Some(machine) = machine else {
        return FlatValue::Waiting;
    };
    match machine.states.get(place as usize) {
        Some(state) => FlatValue::Key(state.key.as_str().as_bytes()),
        None => FlatValue::Waiting,
    }
}

/// The letter at the front of the queue.
fn oldest(letters: &VecDeque<QueuedLetter>) -> Option<&QueuedLetter>
    ensures { option_copied result ≡ slice_get letters.now.items 0 }
{
    letters.front()
}

/// The first letter of an actor in the queue.
fn first_letter(letters: &VecDeque<QueuedLetter>, actor: u64) -> Option<&QueuedLetter>
    ensures { option_copied result ≡ find (λ letter. nat_eq letter.actor actor) letters.now.items }
{
    letters.iter().find(|letter| letter.actor == actor)
}

/// Takes the first letter of an actor out of the queue.
fn take_letter(letters: &mut VecDeque<QueuedLetter>, actor: u64)
    ensures items { letters.new.items ≡ without_first actor letters.old.items }
    ensures capacity { deque_capacity letters.new ≡ deque_capacity letters.old }
{
    if let Some(place) = first_place(letters, actor) {
        let _ = letters.remove(place);
    }
}

/// Where the first letter of an actor stands in the queue.
fn first_place(letters: &VecDeque<QueuedLetter>, actor: u64) -> Option<usize>
    ensures { result ≡ position (λ letter. nat_eq letter.actor actor) letters.now.items }
{
    letters.iter().position(|letter| letter.actor == actor)
}

/// The state that an actor is in after an event.
fn state_behind(
    machines: &FlatMachines,
    flat_actors: &[FlatActor],
    actor: u64,
    event: &Event,
) -> Option<u32>
    ensures { result ≡ state_behind machines.now flat_actors.now actor event.now }
{
    let flat_actor = flat_actor_of(flat_actors, actor)?;
    let machine = machines.get(flat_actor.machine)?;
    next_state(machine, flat_actor.state, event)
}

/// The state of a machine after an event.
fn next_state(machine: &FlatMachine, state: Option<u32>, event: &Event) -> Option<u32>
    ensures { result ≡ next_state machine.now state event.now }
{
    match event {
        Event::Init => Some(machine.initial),
        Event::Sent(kind) => Some(state_after(machine, state?, kind.as_bytes())),
    }
}

/// Where an event of this type leads from a state.
fn state_after(machine: &FlatMachine, place: u32, event: &[u8]) -> u32
    ensures { result ≡ state_after machine.now place event.now }
{
    let Some(state) = machine.states.get(place as usize) else {
        return place;
    };
    match state
        .transitions
        .as_slice()
        .iter()
        .find(|transition| transition.descriptor.as_bytes() == event)
    {
        Some(transition) => transition.state,
        None => place,
    }
}
