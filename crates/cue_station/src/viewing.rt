//! The view of what is known.
ghost use Rattle.std.specs.Prelude.{◌≡◌, IfOk};
ghost use Rattle.cue_station.specs.Alarms as alarms;
ghost use Rattle.cue_station.specs.Drawing as drawing;
ghost use Rattle.cue_station.specs.Keeping.{numbers_of};
ghost use Rattle.cue_station.specs.Network as network;
ghost use Rattle.cue_station.specs.Showing.{since_in};
ghost use Rattle.cue_station.specs.Viewing as viewing;

use crate::alarms::{Facts, alarms_of, awaited_by, put_back_in};
use crate::choosing::is_awaited;
use crate::following::next_in;
use crate::heard::Copied;
use crate::keeping::{numbers_of, shown_failures};
use crate::lighting::{Footing, asked_at, read_at};
use crate::lit::lit_of;
use crate::memory::{Notes, Reading, Relayed, Seen};
use crate::moving::{back_by, place_by};
use crate::network::network_in;
use crate::saying::{said_by, unshown_by};
use crate::showing::{live_of, stack_of};
use crate::telling::{last_of, past_of};
use cue_show::CueNo;
use cue_view::button::Button;
use cue_view::view::{Alarm, Contacted, LiveAttempt, Next, Told, View};
use std::alloc::{AllocError, Global};

// What is shown of a copy.
#[derive(Drop)]
struct Drawn {
    next: Next,
    place: Option<CueNo>,
    stack: Vec<CueNo>,
    live: Vec<LiveAttempt>,
    last: Option<Told>,
    past: Vec<Told>,
}

// Since when the relay has written nothing new.
fn stamped_at(relay: &Option<Relayed>) -> Option<u64>
    ensures { result ≡ network.stamped_at relay.now }
{
    match relay {
        Some(relay) => Some(relay.since),
        None => None,
    }
}

// What is known when the alarms are made.
fn facts_of(notes: &Notes, reading: &Option<Reading>, relay: &Option<Relayed>, at: u64) -> Facts
    ensures { result ≡ viewing.facts_by notes.now reading.now relay.now at }
{
    Facts {
        at,
        asked: asked_at(&notes.answered),
        nobody: notes.nobody,
        differs: notes.differs,
        stamped: stamped_at(relay),
        read: read_at(reading),
        trouble: notes.trouble,
        unshown: unshown_by(&notes.press),
    }
}

// The attempts whose clock was put back.
fn put_back(
    alloc: Global,
    reading: &Option<Reading>,
    seen: &[Seen],
    at: u64,
    wall: u64,
) -> Result<Vec<u32>, AllocError>
    ensures { IfOk result (λ v. v.items
        ≡ alarms.put_back_in (since_in seen.now) at wall (drawing.live_by reading.now)) }
{
    match reading {
        Some(reading) => put_back_in(alloc, &reading.copy, seen, at, wall),
        None => Ok(Vec::new(alloc)),
    }
}

// What the relay says of its devices.
fn network(alloc: Global, relay: &Option<Relayed>, at: u64) -> Result<Vec<Contacted>, AllocError>
    ensures { IfOk result (λ v. v.items ≡ network.network_by relay.now at) }
{
    match relay {
        Some(relay) => network_in(alloc, relay.status.as_ref(), relay.since, at),
        None => Ok(Vec::new(alloc)),
    }
}

// What is wrong.
fn alarms(
    alloc: Global,
    facts: Facts,
    reading: &Option<Reading>,
    seen: &[Seen],
    wall: u64,
    failed: &[Told],
    network: &[Contacted],
) -> Result<Vec<Alarm>, AllocError>
    ensures { IfOk result (λ v. v.items ≡ alarms.alarms_by facts
        (alarms.put_back_in (since_in seen.now) facts.at wall (drawing.live_by reading.now))
        (numbers_of failed.now) (alarms.awaited_by reading.now network.now)) }
{
    let put_back = put_back(alloc, reading, seen, facts.at, wall)?;
    let numbers = numbers_of(alloc, failed)?;
    let awaited = awaited_by(alloc, reading, network)?;
    alarms_of(alloc, facts, &put_back, &numbers, &awaited)
}

// What is shown if nothing was read.
fn nothing_drawn(alloc: Global) -> Drawn
    ensures { viewing.DrawsNone result }
{
    Drawn {
        next: Next::Unknown,
        place: None,
        stack: Vec::new(alloc),
        live: Vec::new(alloc),
        last: None,
        past: Vec::new(alloc),
    }
}

// What is shown of a copy.
fn drawn_of(
    alloc: Global,
    copy: &Copied,
    seen: &[Seen],
    footing: Footing,
) -> Result<Drawn, AllocError>
    ensures { IfOk result (viewing.DrawsCopy footing seen.now copy.now) }
{
    let stack = stack_of(alloc, copy)?;
    let live = live_of(alloc, copy, seen, footing.stands, footing.at, footing.wall)?;
    let last = last_of(alloc, copy)?;
    let past = past_of(alloc, copy)?;
    Ok(Drawn {
        next: next_in(copy),
        place: copy.state.show().place(),
        stack,
        live,
        last,
        past,
    })
}

// What is shown of the newest copy.
fn draw(
    alloc: Global,
    reading: &Option<Reading>,
    seen: &[Seen],
    footing: Footing,
) -> Result<Drawn, AllocError>
    ensures { IfOk result (viewing.DrawsBy footing seen.now reading.now) }
{
    match reading {
        Some(reading) => drawn_of(alloc, &reading.copy, seen, footing),
        None => Ok(nothing_drawn(alloc)),
    }
}

// The buttons that are lit. `cues`: the whole stack of the newest copy.
fn lit(
    alloc: Global,
    reading: &Option<Reading>,
    cues: &[CueNo],
    alarms: &[Alarm],
    seen: &[Seen],
    footing: Footing,
) -> Result<Vec<Button>, AllocError>
    requires { viewing.AreStack reading.now cues.now }
    ensures { IfOk result (λ v. viewing.LightsBy footing seen.now reading.now cues.now alarms.now v.items) }
{
    match reading {
        Some(reading) => lit_of(alloc, &reading.copy, cues, alarms, seen, footing),
        None => Ok(Vec::new(alloc)),
    }
}

/// The view of the notes, of the newest copy, of the relay and of the attempts that are seen, without a number.
/// `kept`: what is kept of what went wrong.
#[tactic(auto, using(crate::proofs::MoveLemmas::drawn_stack))]
pub(crate) fn view_of(
    alloc: Global,
    notes: &Notes,
    reading: &Option<Reading>,
    relay: &Option<Relayed>,
    seen: &[Seen],
    kept: &[Told],
    footing: Footing,
) -> Result<View, AllocError>
    ensures { IfOk result (viewing.IsView notes.now reading.now relay.now seen.now kept.now footing) }
{
    let network = network(alloc, relay, footing.at)?;
    let facts = facts_of(notes, reading, relay, footing.at);
    let failed = shown_failures(alloc, reading, kept)?;
    let alarms = alarms(alloc, facts, reading, seen, footing.wall, &failed, &network)?;
    let Drawn {
        next,
        place,
        stack,
        live,
        last,
        past,
    } = draw(alloc, reading, seen, footing)?;
    let lit = lit(alloc, reading, &stack, &alarms, seen, footing)?;
    Ok(View {
        number: 0,
        at: footing.at,
        read: read_at(reading),
        served: asked_at(&notes.answered),
        stamped: stamped_at(relay),
        next,
        place,
        back: back_by(notes.moved, place_by(reading)),
        stack,
        live,
        chosen: footing.chosen,
        awaits: is_awaited(notes.choice),
        differs: notes.differs.is_some(),
        lit,
        said: said_by(&notes.press, reading),
        before: said_by(&notes.before, reading),
        unsent: None,
        last,
        past,
        failed,
        network,
        alarms,
    })
}
