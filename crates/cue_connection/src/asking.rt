//! What a request asks: its head is read once it has ended, and its body once it is as long as the head says.
ghost use Rattle.std.specs.Prelude.{◌≡◌, ◌≤◌, take, IfOk, IfSome};
ghost use Rattle.cue_connection.specs.Asking.{AsksAfter, AsksBy, AsksWith, IsPressOf};

use crate::marking::{CurtainMove, read_mark};
use cue_request::identity::PageIdentity;
use cue_request::lock::{Said, said_at};
use cue_request::pressing::read_press;
use cue_request::request::{Asked, Refusal, judge, read_head};
use cue_view::button::Button;

/// A press that came.
#[derive(Clone, Copy, Debug, PartialEq, Eq)]
pub struct Pressed {
    /// The number of the view that was shown.
    pub view: u64,
    pub button: Button,
    /// What it says of the word of the lock.
    pub said: Said,
}

/// What a connection asks.
#[derive(Clone, Copy, Debug, PartialEq, Eq)]
pub enum Asking {
    Page,
    /// The newest view.
    View,
    ShowFile,
    /// That a button was pressed; none: the body is no press.
    Press(Option<Pressed>),
    /// That the curtain moves.
    Mark(CurtainMove),
    /// Nothing that is carried out.
    Refused(Refusal),
}

/// What a head asks, before its body is read.
#[derive(Clone, Copy)]
pub(crate) struct Wish {
    asked: Asked,
    // What it says of the word of the lock.
    said: Said,
}

// What is asked by a head that has just these bytes.
#[tactic(auto, using(crate::proofs::AskingLemmas::asks_by))]
fn wish_of(identity: &PageIdentity<'_>, bytes: &[u8]) -> Result<Wish, Refusal>
    ensures { IfOk result (λ wish. AsksBy identity.now bytes.now wish) }
{
    match read_head(bytes)? {
        Some((head, start)) if start == bytes.len() => {
            let asked = judge(identity, &head)?;
            Ok(Wish {
                asked,
                said: said_at(identity.purpose, head.word),
            })
        }
        _ => Err(Refusal::Unreadable),
    }
}

// The press that is in the body of a command.
fn pressed_in(body: &[u8], said: Said) -> Option<Pressed>
    ensures { IfSome result (IsPressOf body.now said) }
{
    let (view, button) = read_press(body)?;
    Some(Pressed { view, button, said })
}

// What is asked by a head that wishes this, with what follows it; none while its body has not come whole.
fn asking_with(wish: Wish, rest: &[u8]) -> Option<Asking>
    ensures { AsksWith wish rest.now result }
{
    match wish.asked {
        Asked::Page => Some(Asking::Page),
        Asked::Board => Some(Asking::View),
        Asked::ShowFile => Some(Asking::ShowFile),
        Asked::Command(size) => {
            let body = rest.get(..size)?;
            match read_mark(body) {
                Some(curtain) => Some(Asking::Mark(curtain)),
                None => Some(Asking::Press(pressed_in(body, wish.said))),
            }
        }
    }
}

/// What is asked by a head of these bytes and by what follows it; none while its body has not come whole.
pub(crate) fn asking_after(identity: &PageIdentity<'_>, head: &[u8], rest: &[u8]) -> Option<Asking>
    ensures { AsksAfter identity.now head.now rest.now result }
{
    match wish_of(identity, head) {
        Ok(wish) => asking_with(wish, rest),
        Err(refusal) => Some(Asking::Refused(refusal)),
    }
}
