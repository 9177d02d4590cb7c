//! What is decided for a load: what that which is heard means, and what comes next.
ghost use Rattle.std.specs.Prelude.{◌≡◌, ◌++◌, OnOk};
ghost use Rattle.cue_load_machine.specs.Steps as step;

use crate::asks::{Ask, Form};
use crate::stage::{LoadEnd, Stage, Try, Waits, is_late, next_place, next_socket};
use cue_ask_machine::home;
use cue_desk::replying::Replied;
use cue_machine::{Address, Input};
use std::alloc::AllocError;

/// What that which was heard means for a message that was sent.
#[derive(Clone, Copy, Debug, PartialEq, Eq)]
pub enum Came {
    /// Nothing.
    Nothing,
    /// It is a reply to it.
    Reply(Replied),
    /// Nobody listens where it was sent.
    Nobody,
    /// The time for the next of its replies has passed.
    Silence,
}

/// Whether a datagram came at this socket, from the controller's port of this machine.
pub fn is_theirs(port: u16, socket: usize, at: usize, from: Address) -> bool
    ensures { result ≡ step.is_theirs port socket at from }
{
    let home = home(port);
    at == socket && (from.host == home.host && from.port == home.port)
}

/// Whether it is heard that nobody listens where this socket sends.
pub fn is_refused(socket: usize, input: Input) -> bool
    ensures { result ≡ step.is_refused socket input }
{
    match input {
        Input::Datagram { .. } => false,
        Input::Refused { at } => at == socket,
        Input::Wake => false,
    }
}

/// What is heard means this for a message, if it says that nobody listens, or else is this reply to it.
pub fn came_of(form: Form, since: u64, now: u64, refused: bool, reply: Option<Replied>) -> Came
    ensures { result ≡ step.came_of form since now refused reply }
{
    if refused {
        return Came::Nobody;
    }
    came_by(form, since, now, reply)
}

// What is heard means this for a message, if it is this reply to it.
fn came_by(form: Form, since: u64, now: u64, reply: Option<Replied>) -> Came
    ensures { result ≡ step.came_by form since now reply }
{
    match reply {
        Some(replied) => Came::Reply(replied),
        None => {
            if is_late(form, since, now) {
                Came::Silence
            } else {
                Came::Nothing
            }
        }
    }
}

/// The message of this place is to be sent; if there is none, all is done.
pub fn begins(asks: &[Ask], place: usize, socket: usize) -> Stage
    ensures { result ≡ step.begins asks.now place socket }
{
    match asks.get(place) {
        Some(ask) => Stage::Sends(Try {
            place,
            left: ask.form.sendings(),
            socket,
        }),
        None => Stage::Over(LoadEnd::Done),
    }
}

// After a reply to a message, at this moment.
fn replied(asks: &[Ask], ask: &Ask, waits: Waits, now: u64, reply: &Replied) -> Stage
    ensures { result ≡ step.replied asks.now ask.now waits now reply.now }
{
    let of = waits.of;
    match ask.refusal.stops_by(reply) {
        Some(code) => Stage::Over(LoadEnd::Refused {
            place: of.place,
            code,
        }),
        None => {
            if waits.rest > 1 {
                return Stage::Waits(waits.one_less(now));
            }
            begins(asks, next_place(of.place, ask.form.covers()), of.socket)
        }
    }
}

// After nobody replied to a message that may not be sent again.
fn given_up(asks: &[Ask], form: Form, of: Try) -> Stage
    ensures { result ≡ step.given_up asks.now form of }
{
    match form {
        Form::Alone => Stage::Over(LoadEnd::Silent { place: of.place }),
        Form::Together(_) => begins(asks, next_place(of.place, 0), next_socket(of.socket)),
    }
}

// After nobody replied to a message in time.
fn silent(asks: &[Ask], form: Form, of: Try) -> Stage
    ensures { result ≡ step.silent asks.now form of }
{
    if of.left > 0 {
        return Stage::Sends(of.again());
    }
    given_up(asks, form, of)
}

/// After this for a message that was sent, at this moment.
pub fn waited(asks: &[Ask], ask: &Ask, waits: Waits, now: u64, came: &Came) -> Stage
    ensures { result ≡ step.waited asks.now ask.now waits now came.now }
{
    match came {
        Came::Nothing => Stage::Waits(waits),
        Came::Reply(reply) => replied(asks, ask, waits, now, reply),
        Came::Nobody => Stage::Over(LoadEnd::Nobody {
            place: waits.of.place,
        }),
        Came::Silence => silent(asks, ask.form, waits.of),
    }
}

/// A reply is kept at its place.
pub fn note(answers: &mut Vec<Option<Replied>>, slot: usize, came: Came)
    ensures { answers.new.items ≡ step.noted answers.old.items slot came }
{
    match came {
        Came::Reply(reply) => {
            if slot < answers.len() {
                answers[slot] = Some(reply);
            }
        }
        Came::Nothing => {}
        Came::Nobody => {}
        Came::Silence => {}
    }
}

/// Puts what was replied to each of these that asks one thing after the others.
#[tactic(auto, using(crate::proofs::StepLemmas::nothing_told))]
pub fn push_told(
    told: &mut Vec<Option<Replied>>,
    asks: &[Ask],
    answers: &[Option<Replied>],
) -> Result<(), AllocError>
    ensures { OnOk result (told.new.items ≡ told.old.items ++ step.told_of asks.now answers.now) }
{
    match (asks, answers) {
        ([first, asks @ ..], [answer, answers @ ..]) => {
            if first.form.is_alone() {
                told.push(*answer)?;
            }
            push_told(told, asks, answers)
        }
        ([], _) => Ok(()),
        ([_, ..], []) => Ok(()),
    }
}

/// Puts a place for the reply to each of these after the others; nothing was replied yet.
pub fn push_none<T: Copy>(answers: &mut Vec<Option<T>>, asks: &[Ask]) -> Result<(), AllocError>
    ensures { OnOk result (answers.new.items ≡ answers.old.items ++ step.none_told asks.now) }
{
    match asks {
        [] => Ok(()),
        [_, rest @ ..] => {
            answers.push(None)?;
            push_none(answers, rest)
        }
    }
}

/// Where a load begins: with the copy, if there is one.
pub fn first_stage(copy: &Option<Vec<u8>>, asks: &[Ask]) -> Stage
    ensures { result ≡ step.first_stage asks.now (step.bytes_of copy.now) }
{
    match copy {
        Some(_) => Stage::Copies,
        None => begins(asks, 0, 0),
    }
}
