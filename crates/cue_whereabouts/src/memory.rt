//! What is known of each device.
ghost use Rattle.std.specs.Prelude.{◌≡◌, ◌++◌, IfOk, None, OnOk, find, nat_eq};
ghost use Rattle.std.specs.Option.{option_copied};
ghost use Rattle.cue_whereabouts.specs.Memory as memory;
ghost use Rattle.cue_whereabouts.specs.Beginning as beginning;

use crate::last::LastPart;
use crate::lists::push_last;
use crate::telling::after_reading;
use cue_core::Event;
use cue_show::limits::MAX_DEVICE_NUMBER;
use cue_show::{DeviceNo, Show};
use std::alloc::{AllocError, Global};
use std::marker::Model;

/// How many device numbers there are.
const NUMBERS: u8 = MAX_DEVICE_NUMBER + 1;

/// What is known of one device.
#[derive(Drop)]
pub struct Known {
    pub device: DeviceNo,
    /// None if nothing was heard of it.
    pub last: Option<LastPart>,
}

/// What is known of each device, by the readings of the store that were heard.
#[derive(Drop)]
pub struct Whereabouts {
    // Each device number once.
    pub(crate) all: Vec<Known>,
}

impl Model for Whereabouts {
    ghost use Rattle.std.specs.Prelude.{List};
    ghost use Rattle.cue_whereabouts.specs.declared.memory.Known.{Known};

    ghost Value = { List Known };

    ghost view = { λ w. w.all.items };
}

// A copy of it, if there is one.
fn copy_of(last: &Option<LastPart>) -> Option<LastPart>
    ensures { result ≡ last.now }
{
    match last {
        Some(last) => Some(last.copied()),
        None => None,
    }
}

// An entry for the device, of which nothing was heard.
fn unheard(device: DeviceNo) -> Known
    ensures { result ≡ record { device = device; last = None } }
{
    Known { device, last: None }
}

// Puts an entry for the device number, of which nothing was heard.
fn push_unheard(all: &mut Vec<Known>, number: u8) -> Result<(), AllocError>
    ensures { OnOk result (all.new.items ≡ all.old.items ++ beginning.entry_of number) }
{
    if let Some(device) = DeviceNo::of_byte(number) {
        push_last(all, unheard(device))?;
    }
    Ok(())
}

// What is known of the device, once a reading was heard.
fn hear_of(known: &mut Known, show: &Show, events: &[Event])
    ensures { known.new ≡ memory.known_after show.now events.now known.old }
{
    let last = known.last.take();
    known.last = after_reading(show, events, known.device, last);
}

// The same of each.
fn hear_each(all: &mut Vec<Known>, show: &Show, events: &[Event])
    ensures { all.new.items ≡ memory.heard show.now events.now all.old.items }
{
    for known in all.iter_mut() {
        hear_of(known, show, events);
    }
}

// What is known of it that a store knows whose last attempt is this one.
fn unless_after(attempt: u32, last: Option<LastPart>) -> Option<LastPart>
    ensures { result ≡ memory.unless_after attempt last }
{
    match last {
        Some(last) => {
            if last.attempt() <= attempt {
                Some(last)
            } else {
                None
            }
        }
        None => None,
    }
}

// The same of the device.
fn forget_of(known: &mut Known, attempt: u32)
    ensures { known.new ≡ memory.known_until attempt known.old }
{
    let last = known.last.take();
    known.last = unless_after(attempt, last);
}

// The same of each.
fn forget_each(all: &mut Vec<Known>, attempt: u32)
    ensures { all.new.items ≡ memory.forgotten_after attempt all.old.items }
{
    for known in all.iter_mut() {
        forget_of(known, attempt);
    }
}

impl Whereabouts {
    /// Nothing was heard of any device.
    #[tactic(auto, using(crate::proofs::BeginningLemmas::entries_one_more, crate::proofs::BeginningLemmas::entries_none))]
    pub fn new(alloc: Global) -> Result<Whereabouts, AllocError>
        ensures { IfOk result (λ w. w ≡ beginning.unheard) }
    {
        let mut all = Vec::new(alloc);
        for number in 0..NUMBERS {
            push_unheard(&mut all, number)?;
        }
        Ok(Whereabouts { all })
    }

    /// What is known of each device, by its number.
    pub fn as_slice(&self) -> &[Known]
        ensures { result.now ≡ self.now }
    {
        &self.all
    }

    // The entry of the device.
    fn known_of(&self, device: DeviceNo) -> Option<&Known>
        ensures { option_copied result ≡ find (λ k. nat_eq k.device device) self.now }
    {
        self.all.iter().find(|known| known.device == device)
    }

    /// The last part of the device that has ended; none if nothing was heard of it.
    pub fn last_of(&self, device: DeviceNo) -> Option<LastPart>
        ensures { result ≡ memory.last_of device self.now }
    {
        match self.known_of(device) {
            Some(known) => copy_of(&known.last),
            None => None,
        }
    }

    /// Hears a reading of the store: its show, and the events that its records tell, the oldest first.
    pub fn hear(&mut self, show: &Show, events: &[Event])
        ensures { self.new ≡ memory.heard show.now events.now self.old }
    {
        hear_each(&mut self.all, show, events);
    }

    /// Forgets each attempt with a higher number than this, the last one of the store that is read: it is of another
    /// store, or of this one before it was put back.
    pub fn forget_after(&mut self, attempt: u32)
        ensures { self.new ≡ memory.forgotten_after attempt self.old }
    {
        forget_each(&mut self.all, attempt);
    }
}
