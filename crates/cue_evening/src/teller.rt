//! What the log writes at each look.
ghost use Rattle.std.specs.Prelude.{◌≡◌, ◌∷◌, ℕ, [], None, Option, Some, drop, option_copied, take};
ghost use Rattle.std.specs.List.{flat_map};
ghost use Rattle.std.specs.Option.{unwrap_or};
ghost use Rattle.cue_evening.specs.LinesOf as lines;
ghost use Rattle.cue_evening.specs.Looks as spec;

use crate::counts::held_line;
use crate::course::{Course, Followed, given_up, is_followed};
use crate::orders::order_line;
use crate::paper::Paper;
use crate::reasons::{
    cancel_line, device_of_cancel, end_line, failures_of, recovered_list, standby_line,
};
use crate::refusals::is_refusal;
use crate::replies::{Answer, cause_in, reply_line};
use crate::sent::Sent;
use cue_core::{Event, State};
use cue_engine::{Order, Reply};
use cue_exchange::Attempt;
use cue_log_lines::listed::Cause;
use cue_log_lines::{Line, Text};
use std::alloc::Global;

// The first so many events, and those after them.
fn cut(events: &[Event], count: usize) -> (&[Event], &[Event])
    ensures front { result.0.now ≡ take count events.now }
    ensures rest { result.1.now ≡ drop count events.now }
{
    match events.split_at_checked(count) {
        Some(both) => both,
        None => (events, &[]),
    }
}

// The state, if no later command of the datagram changed it.
fn state_if<'a>(state: &'a State, later: &[Event]) -> Option<&'a State>
    ensures { option_copied result ≡ spec.state_if state.now later.now }
{
    if later.is_empty() { Some(state) } else { None }
}

// Writes the lines, and follows the attempts.
#[derive(Drop)]
struct Writer<P: Paper + Drop> {
    alloc: Global,
    page: P,
    course: Course,
}

impl<P: Paper + Drop> Writer<P> {
    // Writes the line of what was found, if something was.
    fn tell_found(&mut self, live: &[Attempt])
        ensures page { spec.Grew (P.told self.old.page) (spec.found_entry live.now) (P.told self.new.page) }
        ensures course { self.new.course ≡ self.old.course }
    {
        if live.is_empty() {
            return;
        }
        match recovered_list(self.alloc, live) {
            Ok(list) => self.page.write(&Line::Recovered(Text::new(&list))),
            Err(_) => self.page.lose(),
        }
    }

    // Follows what was found.
    fn follow(&mut self, state: &State)
        ensures { spec.Does (spec.follows state.now.live)
            (spec.log_of (P.told self.old.page) self.old.course)
            (spec.log_of (P.told self.new.page) self.new.course) }
    {
        if self.course.follow(state).is_err() {
            self.page.lose();
        }
    }

    // A look begins: the first one finds what was recovered, and follows it.
    fn open(&mut self, last: Option<u32>, state: &State)
        ensures { spec.Does (spec.opens last state.now.live)
            (spec.log_of (P.told self.old.page) self.old.course)
            (spec.log_of (P.told self.new.page) self.new.course) }
    {
        if last.is_none() {
            self.tell_found(state.live().as_slice());
            self.follow(state);
        }
    }

    // Writes the line of an attempt that is given up by an event, if one is.
    fn tell_cancel(&mut self, event: &Event, later: &[Event])
        ensures { spec.Does (spec.tells_cancel event.now later.now)
            (spec.log_of (P.told self.old.page) self.old.course)
            (spec.log_of (P.told self.new.page) self.new.course) }
    {
        if let Some((seq, reason)) = given_up(event) {
            let cue = self.course.cue_of(seq);
            self.page
                .write(&cancel_line(seq, cue, reason, device_of_cancel(later)));
        }
    }

    // Lets an event happen to the attempts.
    fn apply(&mut self, event: &Event, cause: Cause)
        ensures { spec.Does (spec.applies cause event.now)
            (spec.log_of (P.told self.old.page) self.old.course)
            (spec.log_of (P.told self.new.page) self.new.course) }
    {
        if self.course.take(event, cause).is_err() {
            self.page.lose();
        }
    }

    // Takes an event, and writes a line if an attempt is given up.
    fn take_event(&mut self, event: &Event, later: &[Event], cause: Cause)
        ensures { spec.Does (λ log. spec.tells_cancel event.now later.now (spec.applies cause event.now log))
            (spec.log_of (P.told self.old.page) self.old.course)
            (spec.log_of (P.told self.new.page) self.new.course) }
    {
        self.apply(event, cause);
        self.tell_cancel(event, later);
    }

    // Takes events, in order.
    fn take_events(&mut self, events: &[Event], cause: Cause)
        ensures { spec.Does (spec.takes cause events.now)
            (spec.log_of (P.told self.old.page) self.old.course)
            (spec.log_of (P.told self.new.page) self.new.course) }
    {
        let mut rest = events;
        while let [event, later @ ..] = rest {
            self.take_event(event, later, cause);
            rest = later;
        }
    }

    // Writes the line of a reply, with these words for its address and for what is added. A refusal may be counted in
    // its place.
    fn put_reply(&mut self, answer: &Answer<'_>, address: &[u8], more: &[u8])
        ensures page { spec.Grew (P.told self.old.page) (spec.reply_entry answer.now.reply.now
            (lines.reply_line answer.now.reply.now answer.now.is_sent address.now more.now) ∷ [])
            (P.told self.new.page) }
        ensures course { self.new.course ≡ self.old.course }
    {
        let line = reply_line(answer.reply, answer.is_sent, address, more);
        if is_refusal(answer.reply.counts) {
            self.page.refuse(&line);
        } else {
            self.page.write(&line);
        }
    }

    // Writes the line of a reply, if there is something to say.
    fn tell_reply(&mut self, answer: &Answer<'_>)
        ensures page { spec.Grew (P.told self.old.page) (spec.reply_entries answer.now.reply.now answer.now.is_sent
            answer.now.made.now (option_copied answer.now.state)) (P.told self.new.page) }
        ensures course { self.new.course ≡ self.old.course }
    {
        if !answer.is_told() {
            return;
        }
        match (answer.address(self.alloc), answer.more(self.alloc)) {
            (Ok(address), Ok(more)) => self.put_reply(answer, &address, &more),
            _ => self.page.lose(),
        }
    }

    // Writes the line of a reply, if it is known whether it left.
    fn tell_sent(
        &mut self,
        state: &State,
        reply: &Reply,
        is_sent: Option<bool>,
        made: &[Event],
        later: &[Event],
    )
        ensures { spec.Does (spec.tells_reply state.now reply.now is_sent made.now later.now)
            (spec.log_of (P.told self.old.page) self.old.course)
            (spec.log_of (P.told self.new.page) self.new.course) }
    {
        if let Some(is_sent) = is_sent {
            self.tell_reply(&Answer {
                reply,
                is_sent,
                made,
                state: state_if(state, later),
            });
        }
    }

    // Hears a reply, and then the events of its commands.
    fn hear_reply(
        &mut self,
        state: &State,
        reply: &Reply,
        is_sent: Option<bool>,
        made: &[Event],
        later: &[Event],
    )
        ensures { spec.Does (spec.hears_reply state.now reply.now is_sent made.now later.now)
            (spec.log_of (P.told self.old.page) self.old.course)
            (spec.log_of (P.told self.new.page) self.new.course) }
    {
        self.tell_sent(state, reply, is_sent, made, later);
        self.take_events(made, cause_in(reply.address.as_slice()));
    }

    // Hears replies in order, each with the next of the events. Answers the events that are left.
    fn hear<'b>(&mut self, state: &State, batch: &'b [Event], sent: &mut Sent<'_>) -> &'b [Event]
        ensures log { spec.Does (spec.hears state.now sent.old.replies.now batch.now sent.old.left.now)
            (spec.log_of (P.told self.old.page) self.old.course)
            (spec.log_of (P.told self.new.page) self.new.course) }
        ensures rest { result.now ≡ spec.events_after sent.old.replies.now batch.now }
        ensures left { sent.new.left.now ≡ spec.bits_after sent.old.replies.now sent.old.left.now }
        ensures orders { sent.new.orders.now ≡ sent.old.orders.now }
    {
        let replies = sent.replies;
        let mut rest = batch;
        for reply in replies {
            let (made, later) = cut(rest, reply.events);
            let is_sent = sent.take(reply.statuses);
            self.hear_reply(state, reply, is_sent, made, later);
            rest = later;
        }
        rest
    }

    // Writes the line of an order, if it is known whether it left: of one that is new, and of each at the first look.
    fn tell_order(&mut self, last: Option<u32>, order: &Order, is_sent: Option<bool>)
        ensures page { spec.Grew (P.told self.old.page)
            (spec.order_entries last order.now is_sent self.old.course) (P.told self.new.page) }
        ensures course { self.new.course ≡ self.old.course }
    {
        let Some(is_sent) = is_sent else {
            return;
        };
        if order.is_new || last.is_none() {
            let cue = self.course.cue_of(order.attempt);
            self.page.write(&order_line(order, cue, is_sent));
        }
    }

    // Writes the lines of orders.
    fn tell_orders(&mut self, last: Option<u32>, sent: Sent<'_>)
        ensures page { spec.Grew (P.told self.old.page)
            (spec.orders_entries last sent.entry.orders.now sent.entry.left.now self.old.course)
            (P.told self.new.page) }
        ensures course { self.new.course ≡ self.old.course }
    {
        let orders = sent.orders;
        let mut left = sent;
        for order in orders {
            let is_sent = left.take(0);
            self.tell_order(last, order, is_sent);
        }
    }

    // Writes the line of an attempt that began since the last look, if it hangs on one device.
    fn tell_one_alone(&mut self, last: u32, attempt: &Attempt)
        ensures page { spec.Grew (P.told self.old.page) (spec.alone_entry last attempt.now) (P.told self.new.page) }
        ensures course { self.new.course ≡ self.old.course }
    {
        if let Some(line) = standby_line(last, attempt) {
            self.page.write(&line);
        }
    }

    // Writes a line for each attempt that began since the last look and hangs on one device.
    fn tell_alone(&mut self, last: Option<u32>, live: &[Attempt])
        ensures page { spec.Grew (P.told self.old.page) (spec.alone_entries last live.now) (P.told self.new.page) }
        ensures course { self.new.course ≡ self.old.course }
    {
        let Some(number) = last else {
            return;
        };
        for attempt in live {
            self.tell_one_alone(number, attempt);
        }
    }

    // Goes on to the next look. For how long there was none is said, if it was long.
    fn turn(&mut self)
        ensures { spec.Does (spec.writes (spec.held_entry
            (spec.held_between (P.time self.old.page) (P.time self.new.page))))
            (spec.log_of (P.told self.old.page) self.old.course)
            (spec.log_of (P.told self.new.page) self.new.course) }
    {
        if let Some(millis) = self.page.turn() {
            self.page.write(&held_line(millis));
        }
    }

    // Writes a line for each attempt that has ended, and follows it no longer.
    fn end(&mut self, state: &State, now: u64)
        ensures { spec.Does (spec.ends state.now now)
            (spec.log_of (P.told self.old.page) self.old.course)
            (spec.log_of (P.told self.new.page) self.new.course) }
    {
        tell_ends(
            self.alloc,
            &mut self.page,
            state,
            self.course.as_slice(),
            now,
        );
        self.course.drop_ended(state);
    }

    // Writes what there is to say at a look.
    fn look(&mut self, last: Option<u32>, state: &State, batch: &[Event], sent: Sent<'_>)
        ensures { spec.Does (spec.looks last state.now batch.now (spec.handed sent.entry)
            (unwrap_or (P.time self.old.page) 0))
            (spec.log_of (P.told self.old.page) self.old.course)
            (spec.log_of (P.told self.new.page) self.new.course) }
    {
        let now = self.page.millis();
        let mut sent = sent;
        self.open(last, state);
        let rest = self.hear(state, batch, &mut sent);
        self.take_events(rest, Cause::Unseen);
        self.tell_orders(last, sent);
        self.tell_alone(last, state.live().as_slice());
        self.end(state, now);
    }
}

// Writes the line of an attempt that is no longer live.
fn tell_end<P: Paper>(alloc: Global, page: &mut P, state: &State, followed: &Followed, now: u64)
    ensures { spec.Grew (P.told page.old) (spec.end_entry state.now now followed.now) (P.told page.new) }
{
    if is_followed(state, followed) {
        return;
    }
    match failures_of(alloc, followed) {
        Ok(failures) => page.write(&end_line(followed, &failures, now)),
        Err(_) => page.lose(),
    }
}

// Writes a line for each attempt that has ended.
fn tell_ends<P: Paper>(alloc: Global, page: &mut P, state: &State, course: &[Followed], now: u64)
    ensures { spec.Grew (P.told page.old) (flat_map (spec.end_entry state.now now) course.now) (P.told page.new) }
{
    for followed in course {
        tell_end(alloc, page, state, followed, now);
    }
}

/// The log, from look to look.
#[derive(Drop)]
pub struct Teller<P: Paper + Drop> {
    writer: Writer<P>,
    /// The number of the last attempt that was seen; None before the first look.
    last: Option<u32>,
}

impl<P: Paper + Drop> Teller<P> {
    /// It has not looked yet.
    pub fn new(alloc: Global, page: P) -> Teller<P>
        ensures page { result.writer.page ≡ page }
        ensures course { result.writer.course ≡ [] }
        ensures last { result.last ≡ None }
    {
        Teller {
            writer: Writer {
                alloc,
                page,
                course: Course::new(alloc),
            },
            last: None,
        }
    }

    /// Writes what there is to say at a look: of the state, of the events since the one before, and of what was sent.
    pub fn tell(&mut self, state: &State, batch: &[Event], sent: Sent<'_>)
        ensures seen { self.new.last ≡ Some state.now.last_seq }
        ensures log { (time : Option ℕ) × spec.Does
            (spec.looks_at (P.time self.old.writer.page) time self.old.last state.now batch.now
            (spec.handed sent.entry))
            (spec.log_of (P.told self.old.writer.page) self.old.writer.course)
            (spec.log_of (P.told self.new.writer.page) self.new.writer.course) }
    {
        let last = self.last;
        self.writer.turn();
        self.writer.look(last, state, batch, sent);
        self.last = Some(state.last_seq());
    }
}
