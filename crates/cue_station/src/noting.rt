//! What the desk notes of what it hears and sends.
ghost use Rattle.std.specs.Prelude.{◌≡◌, ◌+◌, [], ◌∷◌, IfOk};
ghost use Rattle.std.specs.Option.{option_map};
ghost use Rattle.cue_station.specs.Asking.{first_of, fresh, if_open, newest_in, sent_press};
ghost use Rattle.cue_station.specs.Reading.{is_status};
ghost use Rattle.cue_station.specs.Choosing as choosing;
ghost use Rattle.cue_station.specs.declared.memory.Question.{Question};
ghost use Rattle.cue_station.specs.Noting as noting;

use crate::asking::followed_on;
use crate::choosing::{acknowledged_by, awaited, chosen_by_order, chosen_by_press, chosen_number};
use crate::evidence::newest_in;
use crate::heard::{Heard, Send};
use crate::hearing::{answered_with, question_with};
use crate::lighting::{Footing, differs_by, stands_by};
use crate::memory::{Answered, Choice, Notes, Pending, Question, Reading, Shown};
use crate::moving::{moved_by, place_by};
use crate::opening::{are_none, going_by, if_open, is_none_final, is_one_ask};
use crate::remembering::{differs_with, nobody_with, trouble_with};
use cue_desk::orders::DeskCommand;
use cue_view::button::Button;
use std::alloc::AllocError;

// The number of the newest question for the status.
fn ask_of(question: Option<Question>) -> Option<u64>
    ensures { result ≡ option_map (λ (q : Question). q.ask) question }
{
    match question {
        Some(question) => Some(question.ask),
        None => None,
    }
}

// What is noted of the controller and of the store.
fn with_answer(
    notes: &Notes,
    at: u64,
    heard: &Heard,
    answered: &Option<Answered>,
    reading: &Option<Reading>,
) -> Notes
    ensures { result ≡ noting.with_answer heard.now at reading.now answered.now notes.now }
{
    let differs = differs_by(at, answered, reading);
    Notes {
        answered: *answered,
        nobody: nobody_with(heard, ask_of(notes.question), notes.nobody),
        trouble: trouble_with(heard, notes.trouble),
        differs: differs_with(differs, at, notes.differs),
        ..*notes
    }
}

// What is noted of the presses.
fn with_presses(notes: &Notes, at: u64, heard: &Heard, reading: &Option<Reading>) -> Notes
    ensures { result ≡ noting.with_presses heard.now at reading.now notes.now }
{
    let beside = followed_on(&notes.beside, at, heard, &notes.answered, reading);
    Notes {
        press: followed_on(&notes.press, at, heard, &notes.answered, reading),
        beside: if_open(&beside, reading),
        before: followed_on(&notes.before, at, heard, &notes.answered, reading),
        ..*notes
    }
}

// Whether the press with the ask is open.
fn waits_by(notes: &Notes, reading: &Option<Reading>, ask: u64) -> bool
    ensures { result ≡ noting.waits_by reading.now notes.now ask }
{
    let open = if_open(&notes.press, reading);
    is_one_ask(ask, &open, &notes.beside)
}

// The choice, once something was heard.
fn grown_by(notes: &Notes, heard: &Heard, reading: &Option<Reading>) -> Choice
    ensures { result ≡ choosing.grown heard.now (noting.waits_by reading.now notes.now) reading.now notes.now.choice }
{
    match notes.choice {
        Choice::Nothing => Choice::Nothing,
        Choice::Attempt(seq) => Choice::Attempt(seq),
        Choice::Awaited(ask, cue) => awaited(
            ask,
            &cue,
            heard,
            waits_by(notes, reading, ask),
            reading,
        ),
    }
}

// What is noted of the choice, and of the failures that were seen.
fn with_choice(
    notes: &Notes,
    at: u64,
    heard: &Heard,
    reading: &Option<Reading>,
    views: &[Shown],
) -> Notes
    ensures { result ≡ noting.with_choice heard.now at reading.now views.now notes.now }
{
    Notes {
        choice: chosen_by_press(grown_by(notes, heard, reading), heard, at, views),
        acknowledged: acknowledged_by(notes.acknowledged, heard, at, views),
        ..*notes
    }
}

/// What is noted once this was heard, before anything is sent.
pub(crate) fn notes_heard(
    notes: &Notes,
    at: u64,
    heard: &Heard,
    reading: &Option<Reading>,
    views: &[Shown],
) -> Notes
    ensures { result ≡ noting.notes_heard heard.now at reading.now views.now notes.now }
{
    let answered = answered_with(notes.answered, notes.question, at, heard);
    let first = with_answer(notes, at, heard, &answered, reading);
    let second = with_presses(&first, at, heard, reading);
    with_choice(&second, at, heard, reading, views)
}

/// What a lit button rests on at a moment by the two clocks.
pub(crate) fn footing_by(notes: &Notes, reading: &Option<Reading>, at: u64, wall: u64) -> Footing
    ensures { result ≡ noting.footing_by notes.now reading.now at wall }
{
    let open = if_open(&notes.press, reading);
    Footing {
        at,
        wall,
        stands: stands_by(at, notes.trouble, &notes.answered, reading),
        chosen: chosen_number(notes.choice),
        going: going_by(&open),
        is_quiet: are_none(&open, &notes.beside),
        is_calm: is_none_final(&open, &notes.beside),
    }
}

// The press that is beside the newest one once another is sent: that one, if it is open.
fn beside_after(notes: &Notes, reading: &Option<Reading>) -> Option<Pending>
    ensures { result ≡ first_of (if_open reading.now notes.now.press) notes.now.beside }
{
    match if_open(&notes.press, reading) {
        Some(open) => Some(open),
        None => notes.beside,
    }
}

// The press that was sent is the newest, and the one before it is beside it, if that is open.
fn with_press(notes: &Notes, at: u64, button: &Button, ask: u64, reading: &Option<Reading>) -> Notes
    ensures { result ≡ noting.with_press reading.now
        (fresh at ask (newest_in reading.now) button.now ∷ []) notes.now }
{
    Notes {
        press: Some(Pending {
            at,
            ask,
            button: *button,
            before: newest_in(reading),
            answer: None,
            settled: None,
            shown: false,
        }),
        beside: beside_after(notes, reading),
        before: notes.press,
        ..*notes
    }
}

// Whether the message is a question for the status.
fn is_status(order: &DeskCommand) -> bool
    ensures { result ≡ is_status order.now }
{
    match order {
        DeskCommand::Status => true,
        DeskCommand::OfCue(_, _) | DeskCommand::Release(_) | DeskCommand::RemoveDevice(_) => false,
    }
}

// What is noted of the press, if the message is that of one.
fn with_sent(notes: &Notes, at: u64, heard: &Heard, send: &Send, reading: &Option<Reading>) -> Notes
    ensures { result ≡ noting.with_press reading.now (sent_press heard.now at reading.now (Some send.now)) notes.now }
{
    if is_status(&send.order) {
        return *notes;
    }
    match heard {
        Heard::Pressed(_, button) => with_press(notes, at, button, send.ask, reading),
        Heard::Copied(_) | Heard::Same(_) | Heard::Unread(_) | Heard::Replied(_, _) => *notes,
        Heard::Nobody(_) | Heard::Relay(_) | Heard::Kept(_) | Heard::Tick => *notes,
    }
}

// What is noted once this was sent, with these numbers of the next view and the next ask.
fn with_message(
    notes: &Notes,
    at: u64,
    heard: &Heard,
    reading: &Option<Reading>,
    send: &Send,
    number: u64,
    next_ask: u64,
) -> Notes
    requires number { number ≡ notes.now.number + 1 }
    requires next_ask { next_ask ≡ notes.now.next_ask + 1 }
    ensures { result ≡ noting.notes_sent heard.now at reading.now (Some send.now) notes.now }
{
    let sent = with_sent(notes, at, heard, send, reading);
    Notes {
        number,
        next_ask,
        question: question_with(notes.question, send.ask, send.order, at),
        choice: chosen_by_order(notes.choice, send.order, send.ask),
        moved: moved_by(send, place_by(reading), notes.moved),
        ..sent
    }
}

/// What is noted once this was sent, with the numbers of the next view and the next ask. It fails only if no number
/// is left.
pub(crate) fn notes_sent(
    notes: &Notes,
    at: u64,
    heard: &Heard,
    reading: &Option<Reading>,
    send: &Option<Send>,
) -> Result<Notes, AllocError>
    ensures { IfOk result (λ n. n ≡ noting.notes_sent heard.now at reading.now send.now notes.now) }
{
    let number = notes.number.checked_add(1).ok_or(AllocError)?;
    match send {
        Some(send) => {
            let next_ask = notes.next_ask.checked_add(1).ok_or(AllocError)?;
            Ok(with_message(notes, at, heard, reading, send, number, next_ask))
        }
        None => Ok(Notes { number, ..*notes }),
    }
}
