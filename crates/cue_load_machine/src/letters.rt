//! The messages of a load, and what their replies are read by.
ghost use Rattle.std.specs.Prelude.{◌≡◌, IfOk, IsErrOf};
ghost use Rattle.cue_desk.specs.Loading.{message_of};
ghost use Rattle.cue_desk.specs.declared.asking.AskFault.TheVariants.{Unwritable};
ghost use Rattle.cue_load_machine.specs.Letters as letter;

use crate::asks::{Ask, Form, Refusal, push_ask};
use cue_ask_machine::Letter;
use cue_desk::asking::{AskFault, Asked, address, bundle_of_cues, bundle_of_devices, datagram};
use cue_loading::Step;
use cue_operator::CueVerb;
use cue_show_file::{CueEntry, DeviceEntry};
use std::alloc::{AllocError, Global};

/// How many bytes of an address a reply shows.
const SHOWN: usize = 64;

// Whether it is the status that is asked.
fn is_status(asked: &Asked<'_>) -> bool
    ensures { result ≡ letter.is_status asked.now }
{
    match asked {
        Asked::Status => true,
        Asked::AddDevice(_, _) => false,
        Asked::AddCue(_, _) => false,
        Asked::OfCue(_, _) => false,
        Asked::Release(_) => false,
        Asked::RemoveDevice(_) => false,
    }
}

/// The letter that asks it, by itself.
fn letter_of(alloc: Global, asked: &Asked<'_>) -> Result<Letter, AskFault>
    ensures asks { IfOk result (λ l. letter.IsLetterOf asked.now l) }
    ensures unwritable { IsErrOf result Unwritable → letter.IsUnaskable asked.now }
{
    if !asked.is_askable() {
        return Err(AskFault::Unwritable);
    }
    let mut shown = address(alloc, asked)?;
    shown.truncate(SHOWN);
    Ok(Letter {
        number: 0,
        is_status: is_status(asked),
        count: 1,
        shown,
        message: datagram(alloc, asked)?,
    })
}

/// What asks this alone.
#[tactic(auto, using(crate::proofs::SayingLemmas::cannot_be_said))]
pub(crate) fn ask_of(alloc: Global, asked: &Asked<'_>, refusal: Refusal) -> Result<Ask, AskFault>
    ensures asks { IfOk result (λ ask. letter.IsAskOf asked.now refusal ask) }
    ensures unwritable { IsErrOf result Unwritable → letter.CannotBeSaid (message_of asked.now) }
{
    Ok(Ask {
        letter: letter_of(alloc, asked)?,
        form: Form::Alone,
        refusal,
    })
}

/// What asks this, and nothing else.
#[tactic(auto, using(crate::proofs::PlanLemmas::is_one))]
pub(crate) fn asks_of(alloc: Global, asked: &Asked<'_>) -> Result<Vec<Ask>, AskFault>
    ensures asks { IfOk result (λ asks. letter.IsOne asked.now asks.items) }
    ensures unwritable { IsErrOf result Unwritable → letter.CannotBeSaid (message_of asked.now) }
{
    let mut asks = Vec::new(alloc);
    push_ask(&mut asks, ask_of(alloc, asked, Refusal::GoesOn)?)?;
    Ok(asks)
}

/// What asks this step of a plan. If it is refused, the load stops; but what is not there is removed.
pub(crate) fn ask_of_step(alloc: Global, step: &Step) -> Result<Ask, AskFault>
    ensures asks { IfOk result (λ ask. letter.IsAskOfStep step.now ask) }
    ensures unwritable { IsErrOf result Unwritable → letter.IsUnaskableStep step.now }
{
    match step {
        Step::AddDevice(device, port) => {
            ask_of(alloc, &Asked::AddDevice(*device, *port), Refusal::Stops)
        }
        Step::RemoveDevice(device) => ask_of(
            alloc,
            &Asked::RemoveDevice(*device),
            Refusal::StopsUnlessGone,
        ),
        Step::AddCue(cue, parts) => ask_of(alloc, &Asked::AddCue(*cue, parts), Refusal::Stops),
        Step::RemoveCue(cue) => ask_of(
            alloc,
            &Asked::OfCue(CueVerb::Remove, *cue),
            Refusal::StopsUnlessGone,
        ),
        Step::MovePlace(cue) => {
            ask_of(alloc, &Asked::OfCue(CueVerb::Goto, *cue), Refusal::Stops)
        }
    }
}

/// What asks for this device alone; if it is refused, the load goes on.
pub(crate) fn ask_of_device(alloc: Global, entry: &DeviceEntry) -> Result<Ask, AskFault>
    ensures asks { IfOk result (λ ask. letter.AsksForDevice entry.now ask) }
    ensures unwritable { IsErrOf result Unwritable → letter.IsUnaskableDevice entry.now }
{
    let ask = ask_of_step(alloc, &Step::AddDevice(entry.number, entry.port))?;
    Ok(Ask {
        letter: ask.letter,
        form: ask.form,
        refusal: Refusal::GoesOn,
    })
}

// What asks several things at one address.
fn together(
    alloc: Global,
    address: &[u8],
    message: Vec<u8>,
    count: usize,
) -> Result<Ask, AllocError>
    ensures { IfOk result (λ ask. letter.IsTogether address.now message.items count ask) }
{
    let shown = Vec::from_slice(alloc, address)?;
    Ok(Ask {
        letter: Letter {
            number: 0,
            is_status: false,
            count: 1,
            shown,
            message,
        },
        form: Form::Together(count),
        refusal: Refusal::GoesOn,
    })
}

/// What asks for these devices, by one datagram.
pub(crate) fn ask_of_devices(alloc: Global, entries: &[DeviceEntry]) -> Result<Ask, AskFault>
    ensures asks { IfOk result (λ ask. letter.AsksForDevices entries.now ask) }
    ensures unwritable { IsErrOf result Unwritable → letter.AreTooManyDevices entries.now }
{
    let message = bundle_of_devices(alloc, entries)?;
    Ok(together(alloc, b"/show/device", message, entries.len())?)
}

/// What asks for these cues, by one datagram.
pub(crate) fn ask_of_cues(alloc: Global, entries: &[CueEntry]) -> Result<Ask, AskFault>
    ensures asks { IfOk result (λ ask. letter.AsksForCues entries.now ask) }
    ensures unwritable { IsErrOf result Unwritable → letter.AreTooManyCues entries.now }
{
    let message = bundle_of_cues(alloc, entries)?;
    Ok(together(alloc, b"/show/mixed", message, entries.len())?)
}
