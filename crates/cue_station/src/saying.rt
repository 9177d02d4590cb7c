//! What is said of the last press that was sent. That it was carried out is said once a copy shows it, and of a STANDBY
//! while its cue stands by: a green line that is not so would be believed.
ghost use Rattle.std.specs.Prelude.{◌≡◌};
ghost use Rattle.std.specs.Option.{option_map, option_map_or};
ghost use Rattle.cue_exchange.specs.Answers.{is_preparing};
ghost use Rattle.cue_exchange.specs.Live.{attempt_of_cue};
ghost use Rattle.cue_station.specs.Asking as asking;
ghost use Rattle.cue_station.specs.declared.memory.Word.{Word};

use crate::heard::Copied;
use crate::memory::{Pending, Reading, Word};
use crate::opening::is_read_later;
use cue_show::CueNo;
use cue_view::button::Button;
use cue_view::view::{Became, Said};

// What became of a press.
fn became_by(answer: Option<Word>, settled: Option<Became>) -> Became
    ensures { result ≡ asking.became_by answer settled }
{
    match (answer, settled) {
        (Some(word), _) => word.became,
        (None, Some(shown)) => shown,
        (None, None) => Became::Open,
    }
}

// Whether it was carried out, or was so already.
fn is_done(became: Became) -> bool
    ensures { result ≡ asking.is_done became }
{
    match became {
        Became::Made | Became::Known | Became::Carried => true,
        Became::Open | Became::Unshown | Became::Over | Became::Refused(_) => false,
        Became::Partly(_) | Became::Nobody | Became::Lost | Became::Unknown => false,
    }
}

// Whether an attempt of the cue prepares: it is neither given nor given up.
fn stands(cue: CueNo, copy: &Copied) -> bool
    ensures { result ≡ asking.stands cue copy.now }
{
    match copy.state.live().of_cue(cue) {
        Some(attempt) => attempt.stage.is_preparing(),
        None => false,
    }
}

// Whether the newest copy has the cue standing by no more.
fn stands_no_more(cue: CueNo, reading: &Option<Reading>) -> bool
    ensures { result ≡ asking.stands_no_more cue reading.now }
{
    match reading {
        Some(reading) => !stands(cue, &reading.copy),
        None => false,
    }
}

// Whether it is a STANDBY whose cue the newest copy has standing by no more.
fn has_ended(button: Button, reading: &Option<Reading>) -> bool
    ensures { result ≡ asking.has_ended button reading.now }
{
    match button {
        Button::Standby(cue) => stands_no_more(cue, reading),
        Button::Go(_, _) | Button::Cancel(_, _) | Button::Release(_, _) => false,
        Button::MoveTo(_) | Button::Choose(_) | Button::Seen(_) => false,
    }
}

// Whether it is a STANDBY that was made, and a copy that was begun later has its cue standing by no more.
fn is_over(pending: &Pending, reading: &Option<Reading>) -> bool
    ensures { result ≡ asking.is_over reading.now pending.now }
{
    is_done(became_by(pending.answer, pending.settled))
        && (is_read_later(pending.answer, reading) && has_ended(pending.button, reading))
}

// Whether the reply says that it was carried out, or was so already.
fn is_said(became: Became) -> bool
    ensures { result ≡ asking.is_said became }
{
    match became {
        Became::Made | Became::Known => true,
        Became::Open | Became::Unshown | Became::Over | Became::Refused(_) => false,
        Became::Partly(_) | Became::Nobody | Became::Carried | Became::Lost => false,
        Became::Unknown => false,
    }
}

// Whether the reply says so, and no copy has shown it.
fn is_unshown(pending: &Pending) -> bool
    ensures { result ≡ asking.is_unshown pending.now }
{
    is_said(became_by(pending.answer, pending.settled)) && !pending.shown
}

// When the answer came.
fn answered_at(answer: Option<Word>) -> Option<u64>
    ensures { result ≡ option_map (λ (w : Word). w.at) answer }
{
    match answer {
        Some(word) => Some(word.at),
        None => None,
    }
}

// Since when the reply says so, and no copy has shown it.
fn unshown_since(pending: &Pending) -> Option<u64>
    ensures { result ≡ asking.unshown_since pending.now }
{
    if is_unshown(pending) {
        answered_at(pending.answer)
    } else {
        None
    }
}

/// Since when the press is said to be carried out, and no copy has shown it.
pub(crate) fn unshown_by(pending: &Option<Pending>) -> Option<u64>
    ensures { result ≡ asking.unshown_by pending.now }
{
    match pending {
        Some(pending) => unshown_since(pending),
        None => None,
    }
}

// What became of a press, by what is known now.
fn became_now(pending: &Pending, reading: &Option<Reading>) -> Became
    ensures { result ≡ asking.became_now reading.now pending.now }
{
    if is_unshown(pending) {
        Became::Unshown
    } else if is_over(pending, reading) {
        Became::Over
    } else {
        became_by(pending.answer, pending.settled)
    }
}

/// What is said of a press, if there is one.
pub(crate) fn said_by(pending: &Option<Pending>, reading: &Option<Reading>) -> Option<Said>
    ensures { result ≡ option_map (asking.said_by reading.now) pending.now }
{
    match pending {
        Some(pending) => Some(Said {
            ask: pending.ask,
            button: pending.button,
            became: became_now(pending, reading),
        }),
        None => None,
    }
}
