//! The desk at work: it hears the controller, the files and the relay, has the machine make a view of each thing that
//! it heard, and sends what the machine says. Nothing here waits but `wait`.
ghost use Rattle.std.specs.Prelude.{◌≡◌, [], IfOk, OnErr, OnOk};
ghost use Rattle.std.specs.Option.{option_copied, option_map};
ghost use Rattle.cue_desk_run.specs.Leaving as leaving;
ghost use Rattle.cue_desk_run.specs.Leaving.{LetterLeaves, NothingLeaves, OnlySends, Sends, SendsIf};
ghost use Rattle.cue_desk_run.specs.Working.{HearsIf, IsUnpressed, IsUntouched, OnlyLooks};
ghost use Rattle.cue_station.specs.Memory.{IsAfter};
ghost use Rattle.cue_station.specs.Reading.{state_read};
ghost use Rattle.cue_station.specs.declared.heard.Heard.TheVariants as heard;

mod alarming;
mod copying;
mod placing;

use crate::alarms::{KeptAlarms, are_same};
use crate::asks::Asks;
use crate::clocks::{Beat, SteadyClock, wall_time};
use crate::devices::{DeviceWatch, KeptDevices};
use crate::failing::Tries;
use crate::letters::letter_of;
use crate::looks::Looks;
use crate::outlet::Way;
use crate::reading::Store;
use crate::relay::read_young;
use crate::sources::Sources;
use cue_core::State;
use cue_show_file::Group;
use cue_station::heard::{Heard, Input, Send};
use cue_station::station::{Station, Step};
use cue_view::button::Button;
use cue_view::view::View;
use mio::{Events, Poll, Registry};
use std::alloc::AllocError;
use std::fs::{File, Files};
use std::net::Net;
use std::time::{Clock, Duration};
use std::{io, mem};

/// How many milliseconds lie between two views at most.
const TICK: u64 = 50;

/// How many lie between two looks at what the relay writes.
const RELAY: u64 = 50;

/// How many lie between two looks at the alarms that are kept in a file.
const ALARMS: u64 = 500;

/// How many answers are heard in a round: one of each ask.
const MAX_ANSWERS: u32 = 3;

/// How many events one wait tells of. What is not told is heard all the same.
const EVENTS: usize = 64;

/// A desk.
#[derive(Drop)]
pub struct Desk<'a, R> {
    rt: &'a R,
    clock: SteadyClock,
    station: Station,
    // The newest view.
    view: View,
    poll: Poll,
    events: Events,
    asks: Asks<'a>,
    store: Store,
    // Where the devices stand, by the copies that were heard.
    devices: DeviceWatch,
    // Where that is kept, if it is.
    places: Option<KeptDevices<'a, R>>,
    relay: Option<&'a str>,
    alarms: Option<KeptAlarms<'a, R>>,
    // Whether other failures are told of than those that were kept last.
    has_changed: bool,
    // What became of the tries to keep the alarms.
    keepings: Tries,
    ticks: Beat,
    looks: Looks,
    relays: Beat,
    keeps: Beat,
}

// The first step: time passes.
fn first_step<R: Clock + AllocGlobal>(rt: &R, station: &mut Station) -> Result<Step, AllocError>
    requires { IsAfter [] station.old }
    ensures untouched { OnOk result (IsUntouched station.new) }
    ensures first { IfOk result (leaving.IsFirstStep station.old station.new) }
{
    let input = Input {
        at: 0,
        wall: wall_time(rt),
        heard: Heard::Tick,
    };
    let step = station.step(rt.alloc(), input)?;
    Ok(step)
}

impl<'a, R: Files<File = File> + Net + Clock + AllocGlobal> Desk<'a, R> {
    /// A desk of which nothing was pressed yet.
    #[tactic(auto, using(crate::proofs::LeaveLemmas::begins))]
    pub fn new(rt: &'a R, sources: &Sources<'a>) -> io::Result<Desk<'a, R>>
        ensures untouched { IfOk result (λ desk. IsUntouched desk.station) }
        ensures begins { IfOk result (λ desk. leaving.Begins desk.station desk.asks.outlet) }
        ensures way { IfOk result (λ desk. desk.asks.outlet.way ≡ leaving.way_of sources.now) }
    {
        let clock = SteadyClock::new(rt)?;
        let poll = Poll::new(rt)?;
        let events = Events::with_capacity(rt.alloc(), EVENTS)?;
        let dir = String::from_str(rt.alloc(), sources.dir)?;
        let devices = DeviceWatch::new(rt.alloc())?;
        let mut station = Station::new(rt.alloc());
        let Step { view, send } = match first_step(rt, &mut station) {
            Ok(step) => step,
            Err(why) => {
                drop(station);
                return Err(io::Error::from(why));
            }
        };
        let way = Way {
            port: sources.port,
            name: sources.name,
            together: sources.together,
        };
        let mut desk = Desk {
            rt,
            clock,
            station,
            view,
            poll,
            events,
            asks: Asks::new(rt.alloc(), way),
            store: Store::new(dir),
            devices,
            places: None,
            relay: sources.relay,
            alarms: None,
            has_changed: false,
            keepings: Tries::new(),
            ticks: Beat::of(TICK),
            looks: Looks::new(),
            relays: Beat::of(RELAY),
            keeps: Beat::of(ALARMS),
        };
        desk.send(send);
        Ok(desk)
    }

    /// The newest view.
    pub fn view(&self) -> &View
        ensures { result.now ≡ self.now.view }
    {
        &self.view
    }

    /// The cues that STANDBY stands by together.
    pub fn together(&self) -> &'a [Group]
        ensures { result.now ≡ self.now.asks.outlet.way.together.now }
    {
        self.asks.together()
    }

    /// What the store stood for when it was read last; none if it was never read.
    pub fn state(&self) -> Option<&State>
        ensures { option_copied result ≡ option_map state_read self.now.station.reading }
    {
        self.station.state()
    }

    /// What is waited at.
    pub fn registry(&self) -> &Registry {
        self.poll.registry()
    }

    /// Milliseconds since it began, by the clock that never goes back.
    pub fn now(&self) -> io::Result<u64> {
        self.clock.now(self.rt)
    }

    // Sends a message, with the cues that stand by together with its own.
    #[tactic(auto, using(crate::proofs::LeaveLemmas::letter_leaves))]
    fn post(&mut self, send: Send) -> io::Result<()>
        ensures station { self.new.station ≡ self.old.station }
        ensures view { self.new.view ≡ self.old.view }
        ensures left { OnOk result (LetterLeaves send self.old.asks.outlet self.new.asks.outlet) }
        ensures lost { OnErr result (self.new.asks.outlet ≡ self.old.asks.outlet) }
        ensures devices { self.new.devices ≡ self.old.devices }
    {
        self.asks.make_room(send.order);
        let letter = letter_of(self.rt.alloc(), send, self.asks.together())?;
        self.asks.post(self.rt, self.poll.registry(), letter)
    }

    // Sends what the machine says. If that fails, no answer to it comes.
    #[tactic(auto, using(crate::proofs::LeaveLemmas::left_or_failed))]
    fn send(&mut self, send: Option<Send>)
        ensures station { self.new.station ≡ self.old.station }
        ensures view { self.new.view ≡ self.old.view }
        ensures sends { Sends send self.old.asks.outlet self.new.asks.outlet }
        ensures devices { self.new.devices ≡ self.old.devices }
    {
        if let Some(send) = send {
            let posted = self.post(send);
            self.asks.note(posted);
        }
    }

    /// Why a message could not be sent, once, if none could be since.
    pub fn take_fault(&mut self) -> Option<io::Error>
        ensures station { self.new.station ≡ self.old.station }
        ensures view { self.new.view ≡ self.old.view }
        ensures nothing { NothingLeaves self.old.asks.outlet self.new.asks.outlet }
    {
        self.asks.take_fault()
    }

    // This view is the newest.
    fn show(&mut self, view: View)
        ensures station { self.new.station ≡ self.old.station }
        ensures view { self.new.view ≡ view }
        ensures nothing { self.new.asks.outlet ≡ self.old.asks.outlet }
        ensures devices { self.new.devices ≡ self.old.devices }
    {
        let old = mem::replace(&mut self.view, view);
        self.has_changed = self.has_changed || !are_same(&old.failed, &self.view.failed);
    }

    // Hears one thing at this moment, and answers whether it was heard: if memory ran out, nothing was.
    fn hear_at(&mut self, at: u64, heard: Heard) -> bool
        ensures heard { HearsIf result heard self.old.station self.new.station self.old.view self.new.view }
        ensures sends { SendsIf result heard self.old.station self.new.station self.old.view self.new.view
            self.old.asks.outlet self.new.asks.outlet }
        ensures devices { self.new.devices ≡ self.old.devices }
    {
        let wall = wall_time(self.rt);
        let input = Input { at, wall, heard };
        let Ok(step) = self.station.step(self.rt.alloc(), input) else {
            return false;
        };
        let Step { view, send } = step;
        self.show(view);
        self.send(send);
        true
    }

    // The same of what is there now.
    fn hear(&mut self, heard: Heard) -> io::Result<bool>
        ensures heard { IfOk result (λ is_heard. HearsIf is_heard heard self.old.station self.new.station
            self.old.view self.new.view) }
        ensures sends { IfOk result (λ is_heard. SendsIf is_heard heard self.old.station self.new.station
            self.old.view self.new.view self.old.asks.outlet self.new.asks.outlet) }
        ensures station { OnErr result (self.new.station ≡ self.old.station) }
        ensures view { OnErr result (self.new.view ≡ self.old.view) }
        ensures nothing { OnErr result (self.new.asks.outlet ≡ self.old.asks.outlet) }
        ensures devices { self.new.devices ≡ self.old.devices }
    {
        match self.now() {
            Ok(at) => Ok(self.hear_at(at, heard)),
            Err(why) => {
                drop(heard);
                Err(why)
            }
        }
    }

    /// A button of the view with this number was pressed. Answers whether that was heard.
    pub fn press(&mut self, number: u64, button: Button) -> bool
        ensures heard { HearsIf result (heard.Pressed number button) self.old.station self.new.station
            self.old.view self.new.view }
        ensures sends { SendsIf result (heard.Pressed number button) self.old.station self.new.station
            self.old.view self.new.view self.old.asks.outlet self.new.asks.outlet }
    {
        matches!(self.hear(Heard::Pressed(number, button)), Ok(true))
    }

    // Hears one thing that is no press. Answers whether it was heard.
    fn look(&mut self, heard: Heard) -> io::Result<bool>
        requires { IsUnpressed heard }
        ensures looks { OnlyLooks self.old.station self.new.station }
        ensures sends { OnlySends self.old.station self.new.station self.old.asks.outlet self.new.asks.outlet }
        ensures devices { self.new.devices ≡ self.old.devices }
    {
        self.hear(heard)
    }

    // Hears the answers that are there.
    #[tactic(auto, using(crate::proofs::WorkLemmas::looks_none, crate::proofs::WorkLemmas::looks_then, crate::proofs::LeaveLemmas::sends_none, crate::proofs::LeaveLemmas::sends_then))]
    fn hear_answers(&mut self) -> io::Result<()>
        ensures looks { OnlyLooks self.old.station self.new.station }
        ensures sends { OnlySends self.old.station self.new.station self.old.asks.outlet self.new.asks.outlet }
    {
        for _ in 0..MAX_ANSWERS {
            let Some(heard) = self.asks.hear(self.rt.alloc()) else {
                return Ok(());
            };
            let _ = self.look(heard)?;
        }
        Ok(())
    }

    // Looks at what the relay has written.
    #[tactic(auto, using(crate::proofs::WorkLemmas::looks_none, crate::proofs::WorkLemmas::looks_then, crate::proofs::LeaveLemmas::sends_none, crate::proofs::LeaveLemmas::sends_then))]
    fn look_at_relay(&mut self) -> io::Result<()>
        ensures looks { OnlyLooks self.old.station self.new.station }
        ensures sends { OnlySends self.old.station self.new.station self.old.asks.outlet self.new.asks.outlet }
    {
        let now = self.now()?;
        if let Some(path) = self.relay {
            if self.relays.is_due(now) {
                let status = read_young(self.rt, path);
                let _ = self.look(Heard::Relay(status))?;
            }
        }
        Ok(())
    }

    // Lets time pass, if a question for the status is due or no view was made for a while.
    #[tactic(auto, using(crate::proofs::WorkLemmas::looks_none, crate::proofs::WorkLemmas::looks_then, crate::proofs::LeaveLemmas::sends_none, crate::proofs::LeaveLemmas::sends_then))]
    fn tick(&mut self) -> io::Result<()>
        ensures looks { OnlyLooks self.old.station self.new.station }
        ensures sends { OnlySends self.old.station self.new.station self.old.asks.outlet self.new.asks.outlet }
    {
        let now = self.now()?;
        if self.ticks.is_due(now) || self.station.due(now) {
            let _ = self.look(Heard::Tick)?;
        }
        Ok(())
    }

    // Hears the controller, and looks at the store.
    #[tactic(auto, using(crate::proofs::WorkLemmas::looks_none, crate::proofs::WorkLemmas::looks_then, crate::proofs::LeaveLemmas::sends_none, crate::proofs::LeaveLemmas::sends_then))]
    fn look_at_controller(&mut self) -> io::Result<()>
        ensures looks { OnlyLooks self.old.station self.new.station }
        ensures sends { OnlySends self.old.station self.new.station self.old.asks.outlet self.new.asks.outlet }
    {
        self.hear_answers()?;
        self.look_at_store()
    }

    // Looks at what the relay and other desks have written.
    #[tactic(auto, using(crate::proofs::WorkLemmas::looks_none, crate::proofs::WorkLemmas::looks_then, crate::proofs::LeaveLemmas::sends_none, crate::proofs::LeaveLemmas::sends_then))]
    fn look_beside(&mut self) -> io::Result<()>
        ensures looks { OnlyLooks self.old.station self.new.station }
        ensures sends { OnlySends self.old.station self.new.station self.old.asks.outlet self.new.asks.outlet }
    {
        self.look_at_relay()?;
        self.look_at_alarms()
    }

    // Looks at all that is due.
    #[tactic(auto, using(crate::proofs::WorkLemmas::looks_none, crate::proofs::WorkLemmas::looks_then, crate::proofs::LeaveLemmas::sends_none, crate::proofs::LeaveLemmas::sends_then))]
    fn look_around(&mut self) -> io::Result<()>
        ensures looks { OnlyLooks self.old.station self.new.station }
        ensures sends { OnlySends self.old.station self.new.station self.old.asks.outlet self.new.asks.outlet }
    {
        self.look_at_controller()?;
        self.look_beside()
    }

    /// Hears all that is there, and looks at what is due. It presses nothing.
    #[tactic(auto, using(crate::proofs::WorkLemmas::looks_none, crate::proofs::WorkLemmas::looks_then, crate::proofs::LeaveLemmas::sends_none, crate::proofs::LeaveLemmas::sends_then))]
    pub fn round(&mut self) -> io::Result<()>
        ensures looks { OnlyLooks self.old.station self.new.station }
        ensures sends { OnlySends self.old.station self.new.station self.old.asks.outlet self.new.asks.outlet }
    {
        self.look_around()?;
        self.tick()
    }

    /// Waits until something comes, and at most so many milliseconds.
    pub fn wait(&mut self, most: u64) -> io::Result<()>
        ensures station { self.new.station ≡ self.old.station }
        ensures view { self.new.view ≡ self.old.view }
        ensures nothing { self.new.asks.outlet ≡ self.old.asks.outlet }
    {
        self.poll
            .poll(&mut self.events, Some(Duration::from_millis(most)))
    }
}
