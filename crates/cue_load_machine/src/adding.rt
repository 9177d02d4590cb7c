//! A load that adds what a show file has: as many devices or cues by one datagram as fit into it, and each by itself
//! if one of the replies to that does not come. A datagram is carried out whole or not at all, so cues that are new
//! come in the order of the file, also if one was lost and each is asked again.
ghost use Rattle.std.specs.Prelude.{◌≡◌, ◌≤◌, ◌<◌, List, IfOk, IsErrOf, OnOk, length};
ghost use Rattle.cue_desk.specs.declared.asking.AskFault.TheVariants.{Unwritable};
ghost use Rattle.cue_load_machine.specs.declared.asks.Ask.{Ask as ask};
ghost use Rattle.cue_show_file.specs.declared.mistake.Subject.{Subject as subject};
ghost use Rattle.cue_load_machine.specs.Addings.{AddsOne, AddsGroups, AnyOf, HasUnaskable, IsAdding, IsUnaskableGroup};
ghost use Rattle.cue_load_machine.specs.Addings.{PushesEach};
ghost use Rattle.cue_load_machine.specs.Letters as letter;

use crate::asks::{Ask, Refusal, push_ask};
use crate::letters::{ask_of, ask_of_cues, ask_of_device, ask_of_devices};
use crate::machine::LoadMachine;
use cue_desk::asking::{AskFault, Asked, cues_that_fit, devices_that_fit};
use cue_loading::Manner;
use cue_show_file::{CueEntry, DeviceEntry, Subject};
use std::alloc::Global;

/// A device or a cue of a show file.
pub trait Entry: Sized {
    /// This asks for it alone.
    ghost asks_alone: { Self → ask → Type 0 };

    /// This asks for all of these.
    ghost asks_together: { List Self → ask → Type 0 };

    /// It cannot be asked for alone.
    ghost cannot_alone: { Self → Type 0 };

    /// There is no datagram that asks for all of these.
    ghost cannot_together: { List Self → Type 0 };

    /// What it is called.
    ghost called: { Self → subject };

    /// What it is called.
    fn subject(&self) -> Subject
        ensures { result ≡ called self.now };

    /// What asks for it to be added. `Unwritable` if it cannot be asked for.
    fn alone(&self, alloc: Global) -> Result<Ask, AskFault>
        ensures asks { IfOk result (λ found. asks_alone self.now found) }
        ensures unwritable { IsErrOf result Unwritable → cannot_alone self.now };

    /// What asks for these to be added, by one datagram. `Unwritable` if OSC has none for them.
    fn together(alloc: Global, entries: &[Self]) -> Result<Ask, AskFault>
        ensures asks { IfOk result (λ found. asks_together entries.now found) }
        ensures unwritable { IsErrOf result Unwritable → cannot_together entries.now };

    /// How many of the first of these one datagram adds: those that fit into it, and at least one.
    fn that_fit(entries: &[Self]) -> usize
        ensures at_most { result ≤ length entries.now }
        ensures at_least { 0 < length entries.now → 0 < result };
}

impl Entry for DeviceEntry {
    ghost asks_alone = { letter.AsksForDevice };

    ghost asks_together = { letter.AsksForDevices };

    ghost cannot_alone = { letter.IsUnaskableDevice };

    ghost cannot_together = { letter.AreTooManyDevices };

    ghost called = { letter.device_called };

    fn subject(&self) -> Subject {
        Subject::Device(self.number)
    }

    fn alone(&self, alloc: Global) -> Result<Ask, AskFault> {
        ask_of_device(alloc, self)
    }

    fn together(alloc: Global, entries: &[DeviceEntry]) -> Result<Ask, AskFault> {
        ask_of_devices(alloc, entries)
    }

    fn that_fit(entries: &[DeviceEntry]) -> usize {
        devices_that_fit(entries)
    }
}

impl Entry for CueEntry {
    ghost asks_alone = { letter.AsksForCue };

    ghost asks_together = { letter.AsksForCues };

    ghost cannot_alone = { letter.IsUnaskableCue };

    ghost cannot_together = { letter.AreTooManyCues };

    ghost called = { letter.cue_called };

    fn subject(&self) -> Subject {
        Subject::Cue(self.number)
    }

    fn alone(&self, alloc: Global) -> Result<Ask, AskFault> {
        let asked = Asked::AddCue(self.number, &self.parts);
        ask_of(alloc, &asked, Refusal::GoesOn)
    }

    fn together(alloc: Global, entries: &[CueEntry]) -> Result<Ask, AskFault> {
        ask_of_cues(alloc, entries)
    }

    fn that_fit(entries: &[CueEntry]) -> usize {
        cues_that_fit(entries)
    }
}

// Puts what asks for each of these alone after the others.
#[tactic(auto, using(crate::proofs::AddLemmas::each_none, crate::proofs::AddLemmas::each_more))]
fn push_each<E: Entry>(alloc: Global, asks: &mut Vec<Ask>, entries: &[E]) -> Result<(), AskFault>
    ensures pushes { OnOk result (PushesEach E.asks_alone asks.old.items entries.now asks.new.items) }
    ensures unwritable { IsErrOf result Unwritable → AnyOf E.cannot_alone entries.now }
{
    match entries {
        [] => Ok(()),
        [first, rest @ ..] => {
            push_ask(asks, first.alone(alloc)?)?;
            push_each(alloc, asks, rest)
        }
    }
}

// Puts what asks for these together after the others, and then what asks for each alone.
#[tactic(auto, using(crate::proofs::AddLemmas::one_group))]
fn push_group<E: Entry>(alloc: Global, asks: &mut Vec<Ask>, entries: &[E]) -> Result<(), AskFault>
    ensures adds { OnOk result (AddsOne E.asks_alone E.asks_together asks.old.items entries.now asks.new.items) }
    ensures unwritable { IsErrOf result Unwritable
        → IsUnaskableGroup E.cannot_alone E.cannot_together entries.now }
{
    push_ask(asks, E::together(alloc, entries)?)?;
    push_each(alloc, asks, entries)
}

// Puts what asks for all of these after the others, by groups.
#[tactic(auto, using(crate::proofs::AddLemmas::no_groups, crate::proofs::AddLemmas::more_groups, crate::proofs::AddLemmas::has_first, crate::proofs::AddLemmas::has_later))]
fn push_groups<E: Entry>(alloc: Global, asks: &mut Vec<Ask>, entries: &[E]) -> Result<(), AskFault>
    ensures adds { OnOk result (AddsGroups E.asks_alone E.asks_together asks.old.items entries.now asks.new.items) }
    ensures unwritable { IsErrOf result Unwritable → HasUnaskable E.cannot_alone E.cannot_together entries.now }
{
    if entries.is_empty() {
        return Ok(());
    }
    let (first, more) = entries.split_at(E::that_fit(entries));
    push_group(alloc, asks, first)?;
    push_groups(alloc, asks, more)
}

/// The machine that adds these to what the store has. `Unwritable` if one of them cannot be asked for.
#[tactic(auto, using(crate::proofs::AddLemmas::is_adding))]
pub fn add_entries<E: Entry>(
    alloc: Global,
    port: u16,
    entries: &[E],
) -> Result<LoadMachine, AskFault>
    ensures adds { IfOk result (λ m. IsAdding E.asks_alone E.asks_together port entries.now m) }
    ensures unwritable { IsErrOf result Unwritable → HasUnaskable E.cannot_alone E.cannot_together entries.now }
{
    let mut asks = Vec::new(alloc);
    push_groups(alloc, &mut asks, entries)?;
    Ok(LoadMachine::of(alloc, port, Manner::Adds, None, asks)?)
}
