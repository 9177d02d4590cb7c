//! What the events of a reading tell of the last part of a device.
ghost use Rattle.std.specs.Prelude.{◌≡◌, find, nat_eq};
ghost use Rattle.std.specs.Option.{option_copied};
ghost use Rattle.cue_core.specs.Events.{is_cancel_of, is_start_of};
ghost use Rattle.cue_whereabouts.specs.Telling as telling;

use crate::last::{End, LastPart, PartBytes};
use cue_core::Event;
use cue_show::{CueNo, DeviceNo, Part, Parts, Show};

// The part for the device.
fn part_for(device: DeviceNo, parts: &[Part]) -> Option<&Part>
    ensures { option_copied result ≡ find (λ p. nat_eq p.device device) parts.now }
{
    parts.iter().find(|part| part.device == device)
}

/// What the parts have the device do; none if there is none for it.
pub(crate) fn bytes_for(device: DeviceNo, parts: &Parts) -> Option<PartBytes>
    ensures { result ≡ telling.bytes_for device parts.now }
{
    match part_for(device, parts.as_slice()) {
        Some(part) => PartBytes::read(part.bytes.as_slice()),
        None => None,
    }
}

/// The same in a cue of the stack.
pub(crate) fn bytes_in(show: &Show, device: DeviceNo, cue: CueNo) -> Option<PartBytes>
    ensures { result ≡ telling.bytes_in show.now device cue }
{
    match show.parts(cue) {
        Some(parts) => bytes_for(device, parts),
        None => None,
    }
}

// Whether the attempt starts.
fn is_start_of(attempt: u32, event: &Event) -> bool
    ensures { result ≡ is_start_of attempt event.now }
{
    match event {
        Event::Start(other, _, _) => *other == attempt,
        Event::Device(_, _) | Event::NoDevice(_) | Event::Cue(_, _) => false,
        Event::NoCue(_) | Event::Place(_) | Event::Cancel(_, _) => false,
        Event::Ready(_, _) | Event::Go(_) | Event::Done(_, _) => false,
        Event::LetGo(_, _) | Event::Failed(_, _) | Event::Excuse(_, _) => false,
    }
}

// Whether the attempt is given up.
fn is_cancel_of(attempt: u32, event: &Event) -> bool
    ensures { result ≡ is_cancel_of attempt event.now }
{
    match event {
        Event::Cancel(other, _) => *other == attempt,
        Event::Device(_, _) | Event::NoDevice(_) | Event::Cue(_, _) => false,
        Event::NoCue(_) | Event::Place(_) | Event::Start(_, _, _) => false,
        Event::Ready(_, _) | Event::Go(_) | Event::Done(_, _) => false,
        Event::LetGo(_, _) | Event::Failed(_, _) | Event::Excuse(_, _) => false,
    }
}

// The event by which the attempt starts.
fn start_in(attempt: u32, events: &[Event]) -> Option<&Event>
    ensures { option_copied result ≡ find (is_start_of attempt) events.now }
{
    events.iter().find(|event| is_start_of(attempt, event))
}

// The cue of a start.
fn started(event: &Event) -> Option<CueNo>
    ensures { result ≡ telling.started event.now }
{
    match event {
        Event::Start(_, cue, _) => Some(*cue),
        Event::Device(_, _) | Event::NoDevice(_) | Event::Cue(_, _) => None,
        Event::NoCue(_) | Event::Place(_) | Event::Cancel(_, _) => None,
        Event::Ready(_, _) | Event::Go(_) | Event::Done(_, _) => None,
        Event::LetGo(_, _) | Event::Failed(_, _) | Event::Excuse(_, _) => None,
    }
}

// The cue of the attempt; none if its start is not among the events.
fn cue_of(attempt: u32, events: &[Event]) -> Option<CueNo>
    ensures { result ≡ telling.cue_of attempt events.now }
{
    match start_in(attempt, events) {
        Some(event) => started(event),
        None => None,
    }
}

// Whether the attempt was given up.
fn is_given_up(attempt: u32, events: &[Event]) -> bool
    ensures { result ≡ telling.is_given_up attempt events.now }
{
    events.iter().any(|event| is_cancel_of(attempt, event))
}

// The attempt in which the event ends the part of the device, and how.
fn ending(events: &[Event], device: DeviceNo, event: &Event) -> Option<(u32, End)>
    ensures { result ≡ telling.ending events.now device event.now }
{
    match event {
        Event::Done(attempt, of) => {
            if *of == device {
                Some((*attempt, End::CarriedOut))
            } else {
                None
            }
        }
        Event::Failed(attempt, of) => {
            if *of == device && !is_given_up(*attempt, events) {
                Some((*attempt, End::Failed))
            } else {
                None
            }
        }
        Event::Device(_, _) | Event::NoDevice(_) | Event::Cue(_, _) => None,
        Event::NoCue(_) | Event::Place(_) | Event::Start(_, _, _) => None,
        Event::Ready(_, _) | Event::Go(_) | Event::Cancel(_, _) => None,
        Event::LetGo(_, _) | Event::Excuse(_, _) => None,
    }
}

// The part of the device that ended so.
fn last_part(show: &Show, events: &[Event], device: DeviceNo, ended: (u32, End)) -> LastPart
    ensures { result ≡ telling.last_part show.now events.now device ended }
{
    let (attempt, end) = ended;
    let cue = cue_of(attempt, events);
    let bytes = match cue {
        Some(cue) => bytes_in(show, device, cue),
        None => None,
    };
    LastPart::of(attempt, end, cue, bytes)
}

/// Whether the attempt is newer than what is known.
pub(crate) fn is_newer(attempt: u32, known: &Option<LastPart>) -> bool
    ensures { result ≡ telling.is_newer attempt known.now }
{
    match known {
        Some(last) => last.attempt() < attempt,
        None => true,
    }
}

// What is known of the device once one of the events was heard.
fn after_event(
    show: &Show,
    events: &[Event],
    device: DeviceNo,
    known: Option<LastPart>,
    event: &Event,
) -> Option<LastPart>
    ensures { result ≡ telling.after_event show.now events.now device known event.now }
{
    match ending(events, device, event) {
        Some(ended) => {
            if is_newer(ended.0, &known) {
                Some(last_part(show, events, device, ended))
            } else {
                known
            }
        }
        None => known,
    }
}

/// What is known of the device once all events of a reading were heard.
pub(crate) fn after_reading(
    show: &Show,
    events: &[Event],
    device: DeviceNo,
    known: Option<LastPart>,
) -> Option<LastPart>
    ensures { result ≡ telling.after_reading show.now events.now device known }
{
    events.iter().fold(known, |known: Option<LastPart>, event| {
        after_event(show, events, device, known, event)
    })
}
