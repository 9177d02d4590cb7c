//! Presses: a button of a view as a text, and the button that a text is. The body of a press is the number of the view
//! that was shown, a space, and the text of one of its buttons, letter by letter as the view has it.
ghost use Rattle.std.specs.Prelude.{◌≡◌, ◌++◌, codes, string_bytes, IfSome, IfOk};
ghost use Rattle.std.specs.Fmt.{decimal};
ghost use Rattle.cue_request.specs.Presses.{body_of, press_of};

use crate::numbers::{device_in, number_in};
use crate::texts::{after, at_space};
use cue_show::{CueNo, DeviceNo};
use cue_show_file::cue_text;
use cue_view::button::Button;
use std::alloc::{AllocError, Global};

/// The text of a button: its word, and then the cue, the attempt or the device that it is for.
pub fn press_text(alloc: Global, button: Button) -> Result<String, AllocError>
    ensures { IfOk result (λ text. string_bytes text ≡ press_of button) }
{
    match button {
        Button::Standby(cue) => of_cue(alloc, "standby ", cue),
        Button::Go(cue, attempt) => of_attempt(alloc, "go ", cue, attempt),
        Button::Cancel(cue, attempt) => of_attempt(alloc, "cancel ", cue, attempt),
        Button::Release(attempt, device) => of_device(alloc, attempt, device),
        Button::MoveTo(cue) => of_cue(alloc, "goto ", cue),
        Button::Choose(attempt) => of_number(alloc, "choose ", attempt),
        Button::Seen(attempt) => of_number(alloc, "seen ", attempt),
    }
}

// A word and a cue.
fn of_cue(alloc: Global, word: &str, cue: CueNo) -> Result<String, AllocError>
    ensures { IfOk result (λ text. string_bytes text ≡ word.now ++ cue) }
{
    let mut text = String::from_str(alloc, word)?;
    text.push_str(cue_text(&cue))?;
    Ok(text)
}

// A word, a cue and its attempt.
fn of_attempt(alloc: Global, word: &str, cue: CueNo, attempt: u32) -> Result<String, AllocError>
    ensures { IfOk result (λ text. string_bytes text ≡ (word.now ++ cue) ++ (codes " " ++ decimal attempt)) }
{
    let mut text = of_cue(alloc, word, cue)?;
    let number = format!(in alloc; " {attempt}")?;
    text.push_str(number.as_str())?;
    Ok(text)
}

// The release of a device in an attempt.
fn of_device(alloc: Global, attempt: u32, device: DeviceNo) -> Result<String, AllocError>
    ensures { IfOk result (λ text. string_bytes text
        ≡ codes "release " ++ (decimal attempt ++ (codes " " ++ decimal device))) }
{
    let device = device.number();
    format!(in alloc; "release {attempt} {device}")
}

// A word and an attempt.
fn of_number(alloc: Global, word: &str, attempt: u32) -> Result<String, AllocError>
    ensures { IfOk result (λ text. string_bytes text ≡ word.now ++ decimal attempt) }
{
    format!(in alloc; "{word}{attempt}")
}

// The attempt that is spelled so.
fn attempt_in(text: &[u8]) -> Option<u32>
    ensures { IfSome result (λ attempt. text.now ≡ decimal attempt) }
{
    u32::try_from(number_in(text)?).ok()
}

// A cue and its attempt.
fn cue_and_attempt(text: &[u8]) -> Option<(CueNo, u32)>
    ensures { IfSome result (λ read. text.now ≡ read.0 ++ (codes " " ++ decimal read.1)) }
{
    let (cue, attempt) = at_space(text)?;
    Some((CueNo::read(cue)?, attempt_in(attempt)?))
}

// An attempt and one of its devices.
fn attempt_and_device(text: &[u8]) -> Option<(u32, DeviceNo)>
    ensures { IfSome result (λ read. text.now ≡ decimal read.0 ++ (codes " " ++ decimal read.1)) }
{
    let (attempt, device) = at_space(text)?;
    Some((attempt_in(attempt)?, device_in(device)?))
}

// STANDBY of a cue, or a move to it.
fn cue_button(text: &[u8]) -> Option<Button>
    ensures { IfSome result (λ button. text.now ≡ press_of button) }
{
    if let Some(cue) = after(b"standby ", text) {
        return Some(Button::Standby(CueNo::read(cue)?));
    }
    let cue = after(b"goto ", text)?;
    Some(Button::MoveTo(CueNo::read(cue)?))
}

// GO or CANCEL of a cue, in an attempt.
fn attempt_button(text: &[u8]) -> Option<Button>
    ensures { IfSome result (λ button. text.now ≡ press_of button) }
{
    if let Some(rest) = after(b"go ", text) {
        let (cue, attempt) = cue_and_attempt(rest)?;
        return Some(Button::Go(cue, attempt));
    }
    let rest = after(b"cancel ", text)?;
    let (cue, attempt) = cue_and_attempt(rest)?;
    Some(Button::Cancel(cue, attempt))
}

// The release of a device.
fn release_button(text: &[u8]) -> Option<Button>
    ensures { IfSome result (λ button. text.now ≡ press_of button) }
{
    let rest = after(b"release ", text)?;
    let (attempt, device) = attempt_and_device(rest)?;
    Some(Button::Release(attempt, device))
}

// The choice of an attempt, or that its end was seen.
fn number_button(text: &[u8]) -> Option<Button>
    ensures { IfSome result (λ button. text.now ≡ press_of button) }
{
    if let Some(attempt) = after(b"choose ", text) {
        return Some(Button::Choose(attempt_in(attempt)?));
    }
    let attempt = after(b"seen ", text)?;
    Some(Button::Seen(attempt_in(attempt)?))
}

// The button whose text this is.
fn button_in(text: &[u8]) -> Option<Button>
    ensures { IfSome result (λ button. text.now ≡ press_of button) }
{
    let of_cue = cue_button(text);
    if of_cue.is_some() {
        return of_cue;
    }
    let of_attempt = attempt_button(text);
    if of_attempt.is_some() {
        return of_attempt;
    }
    let of_number = number_button(text);
    if of_number.is_some() {
        return of_number;
    }
    release_button(text)
}

/// The view and the button that the body of a press names. None if it is no press, letter by letter: no sign, no
/// zero in front, no second space. Nothing is sent then.
pub fn read_press(body: &[u8]) -> Option<(u64, Button)>
    ensures { IfSome result (λ read. body.now ≡ body_of read.0 read.1) }
{
    let (view, text) = at_space(body)?;
    Some((number_in(view)?, button_in(text)?))
}
