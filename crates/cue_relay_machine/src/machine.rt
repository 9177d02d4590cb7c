//! The relay as a machine.
ghost use Rattle.std.specs.Prelude.{◌≡◌, ◌++◌, ◌∷◌, [], ℕ, List, Some, IfOk, OnErr, OnOk, if◌then◌else◌, map};
ghost use Rattle.std.specs.Prelude.{slice_get};
ghost use Rattle.cue_machine.specs.Hearing.{heard_as};
ghost use Rattle.cue_machine.specs.Posting.{given_as};
ghost use Rattle.cue_machine.specs.declared.ears.Input.TheVariants as input;
ghost use Rattle.cue_machine.specs.declared.post.Output.TheVariants as output;
ghost use Rattle.cue_relay.specs.Telling.{claim_from};
ghost use Rattle.cue_relay_machine.specs.Books.{is_due, one_dropped, one_passed};
ghost use Rattle.cue_relay_machine.specs.Lives.{IsNew};
ghost use Rattle.cue_relay_machine.specs.Places.{across_from, machine_address};
ghost use Rattle.cue_relay_machine.specs.Steps as step;
ghost use Rattle.cue_relay_machine.specs.Steps.{state_of};
ghost use Rattle.cue_relay_machine.specs.Texts.{after_time_of, take_at};

use crate::books::Books;
use crate::copies::{Waiting, earliest, pass_copies, push_copies, settle_waiting};
use crate::known::{Known, all_known, take_at, tell_at};
use crate::lines::{date_of, push_news, push_report};
use crate::places::{across_from, machine_address, opening_at, relay_address};
use crate::status::push_file;
use cue_machine::{Address, Input, Machine, Output, Outputs};
use cue_relay::{
    Address as RouteAddress, Going, Message, Meter, Opening, Relay, admit, claim_from, meters,
    way_and_message,
};
use std::alloc::{AllocError, Global};

/// A relay: what it knows of the datagrams that went on, and of each device.
#[derive(Drop)]
pub struct RelayMachine<'a> {
    alloc: Global,
    relay: Relay<'a>,
    file: Option<&'a str>,
    meters: Vec<Meter>,
    known: Vec<Known>,
    // The GO of each route that is to be said again.
    waiting: Vec<Option<Waiting>>,
    // Whether what it gave last it gave at a wake.
    woken: bool,
    books: Books,
}

// A datagram goes on by the socket across.
fn push_sent(out: &mut Outputs, at: usize, going: Going, bytes: &[u8]) -> Result<(), AllocError>
    ensures { OnOk result (out.new ≡ out.old
        ++ given_as (output.Send (across_from at) (machine_address going.way.to)) bytes.now ∷ []) }
{
    let by = across_from(at);
    let to = machine_address(going.way.to);
    out.push(Output::Send { by, to }, bytes)
}

// What is said of the device of this route, if this goes on from it or to it.
#[tactic(auto, using(crate::proofs::StepLemmas::nothing_told, crate::proofs::StepLemmas::something_told))]
fn push_told(
    alloc: Global,
    out: &mut Outputs,
    date: &str,
    known: &[Known],
    route: usize,
    message: Message,
    now: u64,
) -> Result<(), AllocError>
    ensures { OnOk result (out.new ≡ out.old ++ step.told_given date.now (slice_get known.now route) message) }
{
    if route >= known.len() {
        return Ok(());
    }
    let one = &known[route];
    push_news(alloc, out, date, *one, one.told_of_message(message, now))
}

// All that is given for a datagram that goes on.
fn push_going(
    alloc: Global,
    out: &mut Outputs,
    date: &str,
    known: &[Known],
    now: u64,
    at: usize,
    going: Going,
    bytes: &[u8],
) -> Result<(), AllocError>
    ensures { OnOk result (out.new ≡ out.old ++ step.going_given date.now known.now at bytes.now (Some going)) }
{
    push_sent(out, at, going, bytes)?;
    push_told(
        alloc,
        out,
        date,
        known,
        opening_at(at).route,
        going.message,
        now,
    )
}

// The date of a line on the device of this route, if there is something to say of it.
fn date_for(
    alloc: Global,
    known: &[Known],
    route: usize,
    message: Message,
    now: u64,
) -> Result<String, AllocError> {
    match known.get(route) {
        Some(known) if known.told_of_message(message, now).is_some() => date_of(alloc, now),
        _ => Ok(String::new(alloc)),
    }
}

// It is noted of its device, if it goes on now.
fn settle_known(known: &mut Vec<Known>, route: usize, message: Message, now: u64, goes: bool)
    ensures { known.new.items ≡ if goes then take_at known.old.items route message now else known.old.items }
{
    if goes {
        take_at(known, route, message, now);
    }
}

// What was to be given for it is taken back, if it does not go on now.
fn settle_out(out: &mut Outputs, goes: bool)
    ensures { out.new ≡ if goes then out.old else [] }
{
    if !goes {
        out.clear();
    }
}

// It is counted.
fn settled_books(books: Books, goes: bool) -> Books
    ensures { result ≡ if goes then one_passed books else one_dropped books }
{
    if goes {
        books.one_passed()
    } else {
        books.one_dropped()
    }
}

// Says which devices fall silent, and gives what is known of all of them then.
fn push_silences(
    alloc: Global,
    out: &mut Outputs,
    date: &str,
    known: &[Known],
    now: u64,
) -> Result<Vec<Known>, AllocError>
    ensures after { IfOk result (λ after. after.items ≡ map (after_time_of now) known.now) }
    ensures given { OnOk result (out.new ≡ out.old ++ step.silences_given date.now now known.now) }
{
    let mut after = Vec::with_capacity(alloc, known.len())?;
    for one in known {
        let news = one.told_of_time(now);
        push_news(alloc, out, date, *one, news)?;
        after.push(one.after_time(now))?;
    }
    Ok(after)
}

impl<'a> RelayMachine<'a> {
    /// A relay to which nothing came yet, with the file of its status.
    pub fn new(
        alloc: Global,
        relay: Relay<'a>,
        file: Option<&'a str>,
        now: u64,
    ) -> Result<RelayMachine<'a>, AllocError>
        ensures after { IfOk result (λ m. state_of m ≡ step.begun relay.entry (step.path_of file.entry) now) }
        ensures fresh { IfOk result (λ m. IsNew (state_of m)) }
    {
        let meters = meters(alloc, relay.routes.len())?;
        let known = all_known(alloc, relay.routes)?;
        let waiting = vec![in alloc; None; relay.routes.len()]?;
        Ok(RelayMachine {
            alloc,
            relay,
            file,
            meters,
            known,
            waiting,
            woken: false,
            books: Books::begun(now),
        })
    }

    // A datagram came that does not go on: what its device tells of itself is kept, and all else is dropped.
    fn hear(&mut self, now: u64, at: Opening, from: RouteAddress, bytes: &[u8])
        ensures { state_of self.new ≡ step.state_heard (state_of self.old) now at.route
            (claim_from self.old.relay at from bytes.now) }
    {
        match claim_from(self.relay, at, from, bytes) {
            Some(claim) => tell_at(&mut self.known, at.route, claim, now),
            None => self.books = self.books.one_dropped(),
        }
        self.woken = false;
    }

    // A datagram came at the socket of a place.
    fn take(
        &mut self,
        now: u64,
        at: usize,
        from: Address,
        bytes: &[u8],
        out: &mut Outputs,
    ) -> Result<(), AllocError>
        requires { out.old ≡ [] }
        ensures taken { OnOk result (step.Steps (state_of self.old) (heard_as now (input.Datagram at from) bytes.now)
            out.new (state_of self.new)) }
        ensures err { OnErr result (self.new ≡ self.old) }
    {
        let opening = opening_at(at);
        let from = relay_address(from);
        let Some(going) = way_and_message(self.relay, opening, from, bytes) else {
            self.hear(now, opening, from, bytes);
            return Ok(());
        };
        let date = date_for(self.alloc, &self.known, opening.route, going.message, now)?;
        push_going(
            self.alloc,
            out,
            date.as_str(),
            &self.known,
            now,
            at,
            going,
            bytes,
        )?;
        let goes = admit(&mut self.meters, opening, now);
        settle_known(&mut self.known, opening.route, going.message, now, goes);
        settle_waiting(&mut self.waiting, opening.route, now, going, bytes, goes);
        settle_out(out, goes);
        self.woken = false;
        self.books = settled_books(self.books, goes);
        Ok(())
    }

    // A tick, with the date of its lines.
    fn tick(&mut self, now: u64, date: &str, out: &mut Outputs) -> Result<(), AllocError>
        ensures given { OnOk result (out.new ≡ out.old ++ step.tick_given date.now (state_of self.old) now) }
        ensures after { OnOk result (state_of self.new ≡ step.state_ticked (state_of self.old) now) }
        ensures err { OnErr result (self.new ≡ self.old) }
    {
        let known = push_silences(self.alloc, out, date, &self.known, now)?;
        push_report(self.alloc, out, date, self.books.report(now))?;
        push_file(self.alloc, out, self.file, self.books, &known, now)?;
        self.known = known;
        self.books = self.books.ticked(now);
        Ok(())
    }

    // A tick, if it is due.
    fn tick_if_due(&mut self, now: u64, out: &mut Outputs) -> Result<(), AllocError>
        ensures given { OnOk result ((date : List ℕ) × (out.new ≡ out.old
            ++ (if is_due self.old.books now then step.tick_given date (state_of self.old) now else []))) }
        ensures after { OnOk result (state_of self.new
            ≡ if is_due self.old.books now then step.state_ticked (state_of self.old) now else state_of self.old) }
        ensures err { OnErr result (self.new ≡ self.old) }
    {
        if !self.books.is_due(now) {
            return Ok(());
        }
        let date = date_of(self.alloc, now)?;
        self.tick(now, date.as_str(), out)
    }

    // It was woken.
    fn pass(&mut self, now: u64, out: &mut Outputs) -> Result<(), AllocError>
        requires { out.old ≡ [] }
        ensures passed { OnOk result (step.Steps (state_of self.old) (heard_as now input.Wake []) out.new
            (state_of self.new)) }
        ensures err { OnErr result (self.new ≡ self.old) }
    {
        push_copies(out, &self.waiting, now)?;
        self.tick_if_due(now, out)?;
        pass_copies(&mut self.waiting, now);
        self.woken = true;
        Ok(())
    }
}

impl<'a> Machine for RelayMachine<'a> {
    ghost steps = { step.steps };

    ghost after_loss = { step.after_loss };

    ghost wakes = { step.wakes };

    ghost is_over = { step.is_over };

    fn step(
        &mut self,
        now: u64,
        input: Input,
        bytes: &[u8],
        out: &mut Outputs,
    ) -> Result<(), AllocError> {
        match input {
            Input::Datagram { at, from } => self.take(now, at, from, bytes, out),
            Input::Refused { .. } => Ok(()),
            Input::Wake => self.pass(now, out),
        }
    }

    fn lose(&mut self, output: Output) {
        self.books = self.books.lost(self.woken, output);
    }

    fn wakes(&self) -> Option<u64> {
        Some(earliest(self.books.next_tick(), &self.waiting))
    }

    fn is_over(&self) -> bool {
        false
    }
}
