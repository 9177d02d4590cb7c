//! What is wrong, the loudest first.
ghost use Rattle.std.specs.Prelude.{◌≡◌, ◌++◌, IfOk, OnOk, Some, filter, map};
ghost use Rattle.std.specs.Option.{option_to_list};
ghost use Rattle.cue_station.specs.Alarms as alarms;
ghost use Rattle.cue_station.specs.Showing.{since_in};
ghost use Rattle.cue_view.specs.declared.view.Alarm.TheVariants as alarm;

use crate::heard::Copied;
use crate::limits::{COPY_MS, OTHER_MS, SHOWN_MS, STATUS_MS};
use crate::memory::{Reading, Seen};
use crate::network::is_stopped;
use crate::showing::since_in;
use cue_core::limits::STANDBY_MS;
use cue_exchange::Attempt;
use cue_show::DeviceNo;
use cue_view::view::{Alarm, Contacted, Trouble};
use std::alloc::{AllocError, Global};

/// What is known when the alarms are made. Each moment is one of the clock that never goes back.
#[derive(Clone, Copy)]
pub struct Facts {
    pub at: u64,
    /// When the status was asked that was answered last.
    pub asked: Option<u64>,
    /// Nobody listened when the status was asked last.
    pub nobody: bool,
    /// Since when what is served disagrees with the copy.
    pub differs: Option<u64>,
    /// Since when the relay has written nothing new; none: no relay is watched.
    pub stamped: Option<u64>,
    /// The moment for which the copy of the store stands.
    pub read: Option<u64>,
    /// Why the store could not be read when it was looked at last.
    pub trouble: Option<Trouble>,
    /// Since when the last press is said to be carried out, and no copy has shown it.
    pub unshown: Option<u64>,
}

/// Whether a status is alive that was asked at this moment, or none ever was.
pub fn is_alive(at: u64, asked: Option<u64>) -> bool
    ensures { result ≡ alarms.is_within STATUS_MS at asked }
{
    match asked {
        Some(asked) => at.saturating_sub(asked) <= STATUS_MS,
        None => false,
    }
}

/// Whether a copy is young that stands for this moment, or there is none.
pub fn is_young(at: u64, read: Option<u64>) -> bool
    ensures { result ≡ alarms.is_within COPY_MS at read }
{
    match read {
        Some(read) => at.saturating_sub(read) <= COPY_MS,
        None => false,
    }
}

// Whether the files were not there when they were looked at last.
fn is_missing(trouble: Option<Trouble>) -> bool
    ensures { result ≡ alarms.is_missing trouble }
{
    matches!(trouble, Some(Trouble::Missing))
}

/// Whether a copy is in sight that stands for the moment `read`: it is young, and its files were there when they were
/// looked at last.
pub fn in_sight_by(at: u64, trouble: Option<Trouble>, read: Option<u64>) -> bool
    ensures { result ≡ alarms.in_sight_by at trouble read }
{
    is_young(at, read) && !is_missing(trouble)
}

// Nobody answers at the port.
fn silence(facts: Facts) -> Option<Alarm>
    ensures { result ≡ alarms.silence facts }
{
    if is_alive(facts.at, facts.asked) {
        None
    } else if facts.nobody {
        Some(Alarm::NobodyListens)
    } else {
        Some(Alarm::Silent(facts.asked))
    }
}

// Whether a status came that was asked later than at this moment.
fn is_asked_since(since: u64, asked: Option<u64>) -> bool
    ensures { result ≡ alarms.is_asked_since since asked }
{
    match asked {
        Some(asked) => since < asked,
        None => false,
    }
}

// Another store is served since this moment.
fn other_by(since: u64, asked: Option<u64>, now: u64) -> Option<Alarm>
    ensures { result ≡ alarms.other_by (Some since) asked now }
{
    if is_asked_since(since, asked) && now.saturating_sub(since) >= OTHER_MS {
        Some(Alarm::OtherStore(since))
    } else {
        None
    }
}

// Another store is served.
fn other_store(facts: Facts) -> Option<Alarm>
    ensures { result ≡ alarms.other_store facts }
{
    match facts.differs {
        Some(since) => other_by(since, facts.asked, facts.at),
        None => None,
    }
}

// A copy does not show what the reply of this moment says.
fn not_shown_by(since: Option<u64>, read: Option<u64>) -> Option<Alarm>
    ensures { result ≡ alarms.not_shown_by since read }
{
    match (since, read) {
        (Some(since), Some(read)) => {
            if read.saturating_sub(since) >= SHOWN_MS {
                Some(Alarm::NotShown(since))
            } else {
                None
            }
        }
        (None, _) => None,
        (Some(_), None) => None,
    }
}

// What answers at the port is not what the store shows.
fn doubt(facts: Facts) -> Option<Alarm>
    ensures { result ≡ alarms.doubt facts }
{
    match other_store(facts) {
        Some(alarm) => Some(alarm),
        None => not_shown_by(facts.unshown, facts.read),
    }
}

// The relay has stopped.
fn relay_stopped(facts: Facts) -> Option<Alarm>
    ensures { result ≡ alarms.relay_stopped facts }
{
    match facts.stamped {
        Some(since) if is_stopped(since, facts.at) => Some(Alarm::RelayStopped(since)),
        _ => None,
    }
}

// The store is not in sight.
fn old_store(facts: Facts) -> Option<Alarm>
    ensures { result ≡ alarms.old_store facts }
{
    if in_sight_by(facts.at, facts.trouble, facts.read) {
        return None;
    }
    match facts.trouble {
        Some(why) => Some(Alarm::Unread(why)),
        None => Some(Alarm::Old(facts.read)),
    }
}

// Whether the ten seconds of the attempt are over by our clock since it is seen, and not by that of the wall.
fn is_put_back(seen: &[Seen], at: u64, wall: u64, attempt: &Attempt) -> bool
    ensures { result ≡ alarms.is_put_back (since_in seen.now) at wall attempt.now }
{
    match since_in(seen, attempt.seq) {
        Some(since) => {
            attempt.stage.is_preparing()
                && wall < attempt.deadline
                && at.saturating_sub(since) >= STANDBY_MS
        }
        None => false,
    }
}

/// The preparing attempts whose ten seconds are over by our clock since they are seen, and not by that of the wall.
pub fn put_back_in(
    alloc: Global,
    copy: &Copied,
    seen: &[Seen],
    at: u64,
    wall: u64,
) -> Result<Vec<u32>, AllocError>
    ensures { IfOk result (λ numbers. numbers.items
        ≡ alarms.put_back_in (since_in seen.now) at wall copy.now.state.live) }
{
    let live = copy.state.live().as_slice();
    live.iter()
        .filter(|attempt| is_put_back(seen, at, wall, attempt))
        .map(|attempt| attempt.seq)
        .collect(alloc)
}

// Whether a live attempt waits for the device.
fn is_awaited(live: &[Attempt], device: DeviceNo) -> bool
    ensures { result ≡ alarms.is_awaited live.now device }
{
    live.iter().any(|attempt| attempt.answers.waits_for(device))
}

// Of what the relay says, that of the devices for which one of the attempts waits.
fn awaited_in(
    alloc: Global,
    live: &[Attempt],
    network: &[Contacted],
) -> Result<Vec<Contacted>, AllocError>
    ensures { IfOk result (λ v. v.items ≡ filter (λ c. alarms.is_awaited live.now c.device) network.now) }
{
    network
        .iter()
        .copied()
        .filter(|contact| is_awaited(live, contact.device))
        .collect(alloc)
}

/// What the relay says of the devices for which an attempt of the newest copy waits. A device that is silent, and for
/// which nobody waits any more, is no alarm: nothing is owed to it, and it may never speak again by itself.
pub fn awaited_by(
    alloc: Global,
    reading: &Option<Reading>,
    network: &[Contacted],
) -> Result<Vec<Contacted>, AllocError>
    ensures { IfOk result (λ v. v.items ≡ alarms.awaited_by reading.now network.now) }
{
    match reading {
        Some(reading) => awaited_in(alloc, reading.copy.state.live().as_slice(), network),
        None => Ok(Vec::new(alloc)),
    }
}

// Of what the relay says, that of the devices that it calls silent.
fn silent_of(alloc: Global, network: &[Contacted]) -> Result<Vec<Contacted>, AllocError>
    ensures { IfOk result (λ v. v.items ≡ filter (λ c. c.silent) network.now) }
{
    network
        .iter()
        .copied()
        .filter(|contact| contact.silent)
        .collect(alloc)
}

// The devices that the relay calls silent.
fn silent_in(alloc: Global, network: &[Contacted]) -> Result<Vec<DeviceNo>, AllocError>
    ensures { IfOk result (λ devices. devices.items ≡ alarms.silent_in network.now) }
{
    let silent = silent_of(alloc, network)?;
    silent.iter().map(|contact| contact.device).collect(alloc)
}

// Puts the alarm after the others, if there is one.
fn push_one(all: &mut Vec<Alarm>, one: Option<Alarm>) -> Result<(), AllocError>
    ensures { OnOk result (all.new.items ≡ all.old.items ++ option_to_list one) }
{
    match one {
        Some(alarm) => {
            all.push(alarm)?;
            Ok(())
        }
        None => Ok(()),
    }
}

// Puts an alarm of each attempt whose clock was put back after the others.
fn push_put_back(all: &mut Vec<Alarm>, numbers: &[u32]) -> Result<(), AllocError>
    ensures { OnOk result (all.new.items ≡ all.old.items ++ map alarm.ClockPutBack numbers.now) }
{
    for seq in numbers {
        all.push(Alarm::ClockPutBack(*seq))?;
    }
    Ok(())
}

// Puts an alarm of each failure after the others.
fn push_failed(all: &mut Vec<Alarm>, numbers: &[u32]) -> Result<(), AllocError>
    ensures { OnOk result (all.new.items ≡ all.old.items ++ map alarm.Failed numbers.now) }
{
    for seq in numbers {
        all.push(Alarm::Failed(*seq))?;
    }
    Ok(())
}

// Puts an alarm of each silent device after the others.
fn push_silent(all: &mut Vec<Alarm>, devices: &[DeviceNo]) -> Result<(), AllocError>
    ensures { OnOk result (all.new.items ≡ all.old.items ++ map alarm.DeviceSilent devices.now) }
{
    for device in devices {
        all.push(Alarm::DeviceSilent(*device))?;
    }
    Ok(())
}

/// What is wrong, the loudest first. `put_back`: the attempts of `put_back_in`; `failed`: the failures that are shown;
/// `network`: what the relay says of the devices that are awaited.
pub fn alarms_of(
    alloc: Global,
    facts: Facts,
    put_back: &[u32],
    failed: &[u32],
    network: &[Contacted],
) -> Result<Vec<Alarm>, AllocError>
    ensures { IfOk result (λ all. all.items ≡ alarms.alarms_by facts put_back.now failed.now network.now) }
{
    let silent = silent_in(alloc, network)?;
    let mut all = Vec::new(alloc);
    push_one(&mut all, silence(facts))?;
    push_one(&mut all, doubt(facts))?;
    push_one(&mut all, relay_stopped(facts))?;
    push_one(&mut all, old_store(facts))?;
    push_put_back(&mut all, put_back)?;
    push_failed(&mut all, failed)?;
    push_silent(&mut all, &silent)?;
    Ok(all)
}
