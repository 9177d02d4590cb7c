//! The commands of an evening: the word of each on the command line, and what it asks of the controller.
ghost use Rattle.std.specs.Prelude.{◌≡◌, None, IfSome};
ghost use Rattle.cue_desk.specs.Orders.{asked_of, spelling_of};
ghost use Rattle.cue_desk.specs.declared.orders.CommandWord.{CommandWord};

use crate::asking::Asked;
use cue_operator::CueVerb;
use cue_show::{CueNo, DeviceNo};

/// What one command asks of the controller.
#[derive(Clone, Copy)]
pub enum DeskCommand {
    Status,
    OfCue(CueVerb, CueNo),
    Release(DeviceNo),
    RemoveDevice(DeviceNo),
}

/// What the word of a command asks for. The number of the cue or of the device stands after it.
#[derive(Clone, Copy, Debug, PartialEq, Eq)]
pub enum CommandWord {
    Status,
    OfCue(CueVerb),
    Release,
    /// Of a cue or of a device.
    Remove,
}

/// The word that is spelled so; none if no command of an evening is.
pub fn word_in(name: &str) -> Option<CommandWord>
    ensures spelled { IfSome result (λ word. spelling_of word ≡ name.now) }
    ensures none { result ≡ None → (word : CommandWord) → spelling_of word ≡ name.now → ⊥ }
{
    match name {
        "release" => Some(CommandWord::Release),
        "remove" => Some(CommandWord::Remove),
        "status" => Some(CommandWord::Status),
        _ => CueVerb::of(name.as_bytes()).map(CommandWord::OfCue),
    }
}

/// What is asked by an order.
pub fn asked_by(order: DeskCommand) -> Asked<'static>
    ensures { result ≡ asked_of order }
{
    match order {
        DeskCommand::Status => Asked::Status,
        DeskCommand::OfCue(verb, cue) => Asked::OfCue(verb, cue),
        DeskCommand::Release(device) => Asked::Release(device),
        DeskCommand::RemoveDevice(device) => Asked::RemoveDevice(device),
    }
}
