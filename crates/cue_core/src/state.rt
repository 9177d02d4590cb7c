//! The state of a show: the show itself, the attempts that are live, the last number, and how the last attempt ended.
ghost use Rattle.std.specs.Prelude.{◌≡◌, ◌↔◌, IsTrue, IsSome, IfOk, IfSome, OnOk, OnErr, map, filter, nat_le};
ghost use Rattle.std.specs.List.{list_all};
ghost use Rattle.cue_exchange.specs.Answers.{is_preparing};
ghost use Rattle.cue_core.specs.State.{empty_state, is_state, are_tied, are_of_parts, is_of_part, is_at_cue, is_ended};
ghost use Rattle.cue_core.specs.Steps.{acceptable, after};

mod applying;

use crate::event::{Ended, Event};
use cue_exchange::limits::MAX_NUMBER;
use cue_exchange::{Attempt, DeviceAnswer, Live};
use cue_show::{Part, Show};
use std::alloc::{AllocError, Global};
use std::marker::Model;

/// The state of a show. It keeps the allocator that it was made with.
///
/// Its four fields are private, and calls of their names give them: a type that keeps an invariant has no public field,
/// or anybody could break it.
#[derive(Drop)]
pub struct State {
    show: Show,
    live: Live,
    last_seq: u32,
    ended: Option<Ended>,
}

impl Model for State {
    ghost use Rattle.std.specs.Prelude.{IsTrue};
    ghost use Rattle.cue_core.specs.State.{ShowState, is_state};

    ghost Value = { ShowState };

    ghost view = { λ s. record { show = s.show; live = s.live; last_seq = s.last_seq; ended = s.ended } };

    ghost invariant = { λ s. IsTrue
        (is_state (record { show = s.show; live = s.live; last_seq = s.last_seq; ended = s.ended })) };
}

impl State {
    /// The state before the first event.
    pub fn empty(alloc: Global) -> State
        ensures { result ≡ empty_state }
    {
        State {
            show: Show::new(alloc),
            live: Live::new(alloc),
            last_seq: 0,
            ended: None,
        }
    }

    /// The state of these parts, if they keep the rules of a state together. For whoever reads a stored state.
    pub fn of(show: Show, live: Live, last_seq: u32, ended: Option<Ended>) -> Option<State>
        ensures found { IfSome result (λ s. s
            ≡ record { show = show; live = live; last_seq = last_seq; ended = ended }) }
        ensures exact { IsSome result
            ↔ IsTrue (is_state (record { show = show; live = live; last_seq = last_seq; ended = ended })) }
    {
        // Called for its clause that the show keeps its rules.
        let _place = show.place();
        // Called for its clause that the live attempts keep theirs.
        let _len = live.len();
        if are_tied(&show, &live, last_seq, ended) {
            Some(State {
                show,
                live,
                last_seq,
                ended,
            })
        } else {
            None
        }
    }

    /// The devices, the cues and the place.
    pub fn show(&self) -> &Show
        ensures value { result.now ≡ self.now.show }
        ensures rules { IsTrue (is_state self.now) }
    {
        &self.show
    }

    /// The live attempts.
    pub fn live(&self) -> &Live
        ensures value { result.now ≡ self.now.live }
        ensures rules { IsTrue (is_state self.now) }
    {
        &self.live
    }

    /// The last number that was drawn for an attempt; 0 before the first.
    pub fn last_seq(&self) -> u32
        ensures value { result ≡ self.now.last_seq }
        ensures rules { IsTrue (is_state self.now) }
    {
        self.last_seq
    }

    /// The attempt that ended last, and how.
    pub fn ended(&self) -> Option<Ended>
        ensures value { result ≡ self.now.ended }
        ensures rules { IsTrue (is_state self.now) }
    {
        self.ended
    }

    /// A state that is equal to this one, on the same allocator.
    pub fn try_clone(&self) -> Result<State, AllocError>
        ensures { IfOk result (λ s. s ≡ self.now) }
    {
        Ok(State {
            show: self.show.try_clone()?,
            live: self.live.try_clone()?,
            last_seq: self.last_seq,
            ended: self.ended,
        })
    }
}

/// Applies an event to a state, as `State::apply` does. If memory runs out nothing changes.
///
/// Whoever reads events from outside asks `State::can_apply` first; the events of `judge` are acceptable in turn.
pub fn apply(state: &mut State, event: &Event) -> Result<(), AllocError>
    requires { IsTrue (acceptable state.old event.now) }
    ensures ok { OnOk result (state.new ≡ after state.old event.now) }
    ensures err { OnErr result (state.new ≡ state.old) }
{
    state.apply(event)
}

/// The numbers of the attempts that are Preparing, rising: those that a recovery from power loss gives up.
pub fn undecided(alloc: Global, state: &State) -> Result<Vec<u32>, AllocError>
    ensures { IfOk result (λ seqs. seqs.items ≡ map (λ a. a.seq) (filter (λ a. is_preparing a.stage) state.now.live)) }
{
    numbers_undecided(alloc, state.live.as_slice())
}

fn numbers_undecided(alloc: Global, live: &[Attempt]) -> Result<Vec<u32>, AllocError>
    ensures { IfOk result (λ seqs. seqs.items ≡ map (λ a. a.seq) (filter (λ a. is_preparing a.stage) live.now)) }
{
    live.iter()
        .filter(|a| a.stage.is_preparing())
        .map(|a| a.seq)
        .collect(alloc)
}

// Whether the parts of a state keep the rules that tie them.
fn are_tied(show: &Show, live: &Live, last_seq: u32, ended: Option<Ended>) -> bool
    ensures { result ≡ are_tied (record { show = show.now; live = live.now; last_seq = last_seq; ended = ended }) }
{
    are_at_cues(show, live)
        && are_within(live, last_seq)
        && last_seq <= MAX_NUMBER
        && has_ended(live, last_seq, ended)
}

fn are_at_cues(show: &Show, live: &Live) -> bool
    ensures { result ≡ list_all (is_at_cue show.now) live.now }
{
    live.as_slice()
        .iter()
        .all(|attempt| is_at_cue(show, attempt))
}

// Whether the attempt's cue is in the stack, with the attempt's devices.
fn is_at_cue(show: &Show, attempt: &Attempt) -> bool
    ensures { result ≡ is_at_cue show.now attempt.now }
{
    match show.parts(attempt.cue) {
        Some(parts) => are_of_parts(parts.as_slice(), attempt.answers.as_slice()),
        None => false,
    }
}

// Whether the devices of the answers are those of the parts, in order.
fn are_of_parts(parts: &[Part], answers: &[DeviceAnswer]) -> bool
    ensures { result ≡ are_of_parts parts.now answers.now }
{
    match (parts, answers) {
        ([], []) => true,
        ([part, parts @ ..], [answer, answers @ ..]) => {
            is_of_part(part, answer) && are_of_parts(parts, answers)
        }
        _ => false,
    }
}

// Whether the device is that of the part, and optional if the part is.
fn is_of_part(part: &Part, answer: &DeviceAnswer) -> bool
    ensures { result ≡ is_of_part part.now answer.now }
{
    part.device == answer.device && part.optional == answer.optional
}

fn are_within(live: &Live, last_seq: u32) -> bool
    ensures { result ≡ list_all (λ a. nat_le a.seq last_seq) live.now }
{
    live.as_slice()
        .iter()
        .all(|attempt| attempt.seq <= last_seq)
}

fn has_ended(live: &Live, last_seq: u32, ended: Option<Ended>) -> bool
    ensures { result ≡ is_ended live.now last_seq ended }
{
    match ended {
        None => true,
        Some(e) => 1 <= e.seq
            && e.seq <= MAX_NUMBER
            && e.seq <= last_seq
            && live.of_seq(e.seq).is_none(),
    }
}
