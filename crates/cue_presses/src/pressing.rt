//! Which buttons of a view an intent presses.
ghost use Rattle.std.specs.Prelude.{◌≡◌};
ghost use Rattle.cue_presses.specs.Meaning as rule;

use crate::intent::Intent;
use cue_show::CueNo;
use cue_view::button::Button;
use cue_view::view::{LiveAttempt, Next, View};

/// What is pressed: the attempt is chosen first, if it is not chosen.
#[derive(Clone, Copy, PartialEq, Eq, Debug)]
pub struct Press {
    pub choose: Option<u32>,
    pub button: Button,
}

/// Why nothing is pressed.
#[derive(Clone, Copy, PartialEq, Eq, Debug)]
pub enum Why {
    /// No cue is next.
    NoNext,
    /// Another cue is next than the one that was named.
    OtherNext,
    /// Something is live at the cue.
    IsLive,
    /// No attempt is ready, or none prepares.
    Nobody,
    /// More than one stands by, and none is chosen.
    Many,
    /// A cue was given since the only one that stands by was stood by.
    Passed,
    /// The cue that was named, or the attempt that is chosen, is not.
    NotThis,
    /// The attempt of the last STANDBY is not shown yet.
    Awaited,
}

/// Which attempts are looked for.
#[derive(Clone, Copy, Debug)]
pub enum Wanted {
    /// Those to which GO can be given.
    Ready,
    /// Those of the cue.
    ReadyAt(CueNo),
    /// Those that prepare.
    Preparing,
}

/// How many attempts are as they are wanted.
#[derive(Clone, Copy, Debug)]
pub enum Sole {
    Nobody,
    /// This one alone, at this cue.
    One(u32, CueNo),
    Many,
}

// Whether the attempt is as it is wanted.
fn fits(wanted: &Wanted, attempt: &LiveAttempt) -> bool
    ensures { result ≡ rule.fits wanted.now attempt.now }
{
    match wanted {
        Wanted::Ready => attempt.ready,
        Wanted::ReadyAt(cue) => attempt.ready && attempt.cue == *cue,
        Wanted::Preparing => attempt.stage.is_preparing(),
    }
}

// One attempt more that is as it is wanted.
fn joined(attempt: &LiveAttempt, others: Sole) -> Sole
    ensures { result ≡ rule.joined attempt.now others }
{
    match others {
        Sole::Nobody => Sole::One(attempt.seq, attempt.cue),
        Sole::One(_, _) | Sole::Many => Sole::Many,
    }
}

// How many of the live attempts are as they are wanted.
fn sole_of(wanted: &Wanted, live: &[LiveAttempt]) -> Sole
    ensures { result ≡ rule.sole_of wanted.now live.now }
{
    match live {
        [] => Sole::Nobody,
        [attempt, others @ ..] => {
            let sole = sole_of(wanted, others);
            if fits(wanted, attempt) {
                joined(attempt, sole)
            } else {
                sole
            }
        }
    }
}

// The attempt with this number, if it is as it is wanted.
fn chosen_of(wanted: &Wanted, seq: u32, live: &[LiveAttempt]) -> Sole
    ensures { result ≡ rule.chosen_of wanted.now seq live.now }
{
    match live {
        [] => Sole::Nobody,
        [attempt, others @ ..] => {
            if attempt.seq == seq && fits(wanted, attempt) {
                Sole::One(attempt.seq, attempt.cue)
            } else {
                chosen_of(wanted, seq, others)
            }
        }
    }
}

// What has to be chosen first.
fn choose_by(chosen: Option<u32>, seq: u32) -> Option<u32>
    ensures { result ≡ rule.choose_by chosen seq }
{
    match chosen {
        Some(chosen) => { if chosen == seq { None } else { Some(seq) } }
        None => Some(seq),
    }
}

// GO of the only attempt.
fn go_of(chosen: Option<u32>, sole: Sole, nobody: Why) -> Result<Press, Why>
    ensures { result ≡ rule.go_of chosen sole nobody }
{
    match sole {
        Sole::Nobody => Err(nobody),
        Sole::One(seq, cue) => Ok(Press {
            choose: choose_by(chosen, seq),
            button: Button::Go(cue, seq),
        }),
        Sole::Many => Err(Why::Many),
    }
}

// CANCEL of the only attempt.
fn cancel_of(chosen: Option<u32>, sole: Sole, nobody: Why) -> Result<Press, Why>
    ensures { result ≡ rule.cancel_of chosen sole nobody }
{
    match sole {
        Sole::Nobody => Err(nobody),
        Sole::One(seq, cue) => Ok(Press {
            choose: choose_by(chosen, seq),
            button: Button::Cancel(cue, seq),
        }),
        Sole::Many => Err(Why::Many),
    }
}

// Whether the attempt was live when this desk gave its last cue.
fn is_passed(passed: Option<u32>, seq: u32) -> bool
    ensures { result ≡ rule.is_passed passed seq }
{
    match passed {
        Some(newest) => seq <= newest,
        None => false,
    }
}

// Whether a cue was given since the attempt was stood by, by whomever.
fn was_passed(seq: u32, live: &[LiveAttempt]) -> bool
    ensures { result ≡ rule.was_passed seq live.now }
{
    live.iter()
        .any(|attempt| attempt.seq == seq && attempt.passed)
}

// GO of the only attempt that stands by, once it is ready.
fn go_sole(passed: Option<u32>, sole: Sole, live: &[LiveAttempt]) -> Result<Press, Why>
    ensures { result ≡ rule.go_sole passed sole live.now }
{
    match sole {
        Sole::Nobody => Err(Why::Nobody),
        Sole::One(seq, _) => {
            if is_passed(passed, seq) || was_passed(seq, live) {
                return Err(Why::Passed);
            }
            go_of(None, chosen_of(&Wanted::Ready, seq, live), Why::Nobody)
        }
        Sole::Many => Err(Why::Many),
    }
}

// GO that names no cue: of the chosen attempt, else of the only one that stands by.
fn go_alone(view: &View, passed: Option<u32>) -> Result<Press, Why>
    ensures { result ≡ rule.go_alone view.now.chosen view.now.awaits passed view.now.live.items }
{
    if view.awaits {
        return Err(Why::Awaited);
    }
    match view.chosen {
        Some(seq) => go_of(
            view.chosen,
            chosen_of(&Wanted::Ready, seq, &view.live),
            Why::NotThis,
        ),
        None => go_sole(passed, sole_of(&Wanted::Preparing, &view.live), &view.live),
    }
}

// Whether the attempt with this number is live.
fn is_there(seq: u32, live: &[LiveAttempt]) -> bool
    ensures { result ≡ rule.is_there seq live.now }
{
    live.iter().any(|attempt| attempt.seq == seq)
}

// The attempt that is chosen, while it is live.
fn chosen_live(chosen: Option<u32>, live: &[LiveAttempt]) -> Option<u32>
    ensures { result ≡ rule.chosen_live chosen live.now }
{
    match chosen {
        Some(seq) => if is_there(seq, live) { Some(seq) } else { None },
        None => None,
    }
}

// CANCEL: of the chosen attempt while it is live, else of the only one that prepares.
fn cancel_by(chosen: Option<u32>, live: &[LiveAttempt]) -> Result<Press, Why>
    ensures { result ≡ rule.cancel_by chosen live.now }
{
    let wanted = Wanted::Preparing;
    match chosen {
        Some(seq) => cancel_of(chosen, chosen_of(&wanted, seq, live), Why::NotThis),
        None => cancel_of(chosen, sole_of(&wanted, live), Why::Nobody),
    }
}

// The same, once what was stood by last is shown.
fn cancel_alone(view: &View) -> Result<Press, Why>
    ensures { result ≡ rule.cancel_alone view.now.chosen view.now.awaits view.now.live.items }
{
    if view.awaits {
        return Err(Why::Awaited);
    }
    cancel_by(chosen_live(view.chosen, &view.live), &view.live)
}

// Whether something is live at the cue.
fn is_live(cue: &CueNo, live: &[LiveAttempt]) -> bool
    ensures { result ≡ rule.is_live cue.now live.now }
{
    live.iter().any(|attempt| attempt.cue == *cue)
}

// STANDBY of the cue that is next.
fn standby_of(cue: &CueNo, live: &[LiveAttempt]) -> Result<Press, Why>
    ensures { result ≡ rule.standby_of cue.now live.now }
{
    if is_live(cue, live) {
        return Err(Why::IsLive);
    }
    Ok(Press {
        choose: None,
        button: Button::Standby(*cue),
    })
}

// Whether the cue may be meant by who names this one, or none.
fn is_meant(named: &Option<CueNo>, cue: &CueNo) -> bool
    ensures { result ≡ rule.is_meant named.now cue.now }
{
    match named {
        Some(named) => named == cue,
        None => true,
    }
}

// STANDBY, perhaps with a cue.
fn standby_by(view: &View, named: &Option<CueNo>) -> Result<Press, Why>
    ensures { result ≡ rule.standby_by view.now.next view.now.live.items named.now }
{
    match &view.next {
        Next::Cue(cue) => {
            if is_meant(named, cue) {
                standby_of(cue, &view.live)
            } else {
                Err(Why::OtherNext)
            }
        }
        Next::Empty | Next::End | Next::Unknown => Err(Why::NoNext),
    }
}

/// What an intent presses, by this view; else why nothing. `passed`: the newest attempt that was live when this desk
/// gave its last cue (`newest_of`), if it gave one.
pub fn meaning(view: &View, passed: Option<u32>, intent: &Intent) -> Result<Press, Why>
    ensures { result ≡ rule.meaning view.now passed intent.now }
{
    match intent {
        Intent::Standby(named) => standby_by(view, named),
        Intent::Go(Some(cue)) => {
            let sole = sole_of(&Wanted::ReadyAt(*cue), &view.live);
            go_of(view.chosen, sole, Why::NotThis)
        }
        Intent::Go(None) => go_alone(view, passed),
        Intent::Cancel => cancel_alone(view),
    }
}

/// The newest of these attempts; 0 if there is none.
pub fn newest_of(live: &[LiveAttempt]) -> u32
    ensures { result ≡ rule.newest_of live.now }
{
    match live {
        [] => 0,
        [attempt, others @ ..] => attempt.seq.max(newest_of(others)),
    }
}

/// Whether the press may be sent by this view: what is pressed first is lit.
pub fn is_lit(view: &View, press: &Press) -> bool {
    match press.choose {
        Some(seq) => view.lit.iter().any(|button| *button == Button::Choose(seq)),
        None => view.lit.iter().any(|button| *button == press.button),
    }
}

// Whether an attempt prepares that may be meant by who names this cue, or none.
fn may_come(named: &Option<CueNo>, live: &[LiveAttempt]) -> bool
    ensures { result ≡ rule.may_come named.now live.now }
{
    live.iter().any(|attempt| attempt.stage.is_preparing() && is_meant(named, &attempt.cue))
}

// Whether it is no use that a GO waits.
fn is_hopeless_go(named: &Option<CueNo>, live: &[LiveAttempt], why: &Why) -> bool
    ensures { result ≡ rule.is_hopeless_go named.now live.now why.now }
{
    match why {
        Why::Nobody | Why::NotThis => !may_come(named, live),
        Why::NoNext | Why::OtherNext | Why::IsLive | Why::Many => true,
        Why::Passed | Why::Awaited => true,
    }
}

/// Whether it is no use to wait: no attempt prepares that the intent could be of.
pub fn is_hopeless(view: &View, intent: &Intent, why: &Why) -> bool
    ensures { result ≡ rule.is_hopeless view.now intent.now why.now }
{
    match intent {
        Intent::Go(named) => is_hopeless_go(named, &view.live, why),
        Intent::Standby(_) | Intent::Cancel => true,
    }
}
