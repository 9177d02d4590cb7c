//! Writes a line of the log.
ghost use Rattle.std.specs.Prelude.{◌≡◌, ◌++◌, codes, decimal, IfOk, OnOk};
ghost use Rattle.cue_log_lines.specs.declared.line.Refused.TheVariants as refused;
ghost use Rattle.cue_log_lines.specs.Lines as text;

use crate::line::{Asked, Count, Ended, Line, OrderKind, Ordered, Refused, Span, Try, Why};
use cue_show::{CueNo, DeviceNo};
use cue_words::{code_words, outcome_words, reason_words};
use itoa::Buffer;
use std::alloc::{AllocError, Global};

/// How many bytes a line has room for at first: few have more.
const LINE: usize = 160;

/// Fixed words.
pub(crate) fn put(out: &mut Vec<u8>, words: &[u8]) -> Result<(), AllocError>
    ensures { OnOk result (out.new.items ≡ out.old.items ++ words.now) }
{
    out.extend_from_slice(words)
}

// Words, and other words after them.
fn put_both(out: &mut Vec<u8>, words: &[u8], more: &[u8]) -> Result<(), AllocError>
    ensures { OnOk result (out.new.items ≡ out.old.items ++ (words.now ++ more.now)) }
{
    put(out, words)?;
    put(out, more)
}

// A number in digits.
fn put_number(out: &mut Vec<u8>, number: u64) -> Result<(), AllocError>
    ensures { OnOk result (out.new.items ≡ out.old.items ++ decimal number) }
{
    let mut buffer = Buffer::new();
    out.extend_from_slice(buffer.format(number).as_bytes())
}

// A time in seconds and tenths.
#[tactic(auto, unfolding(crate::specs::Lines::span_text))]
fn put_span(out: &mut Vec<u8>, span: Span) -> Result<(), AllocError>
    ensures { OnOk result (out.new.items ≡ out.old.items ++ text.span_text span) }
{
    put_number(out, span.seconds)?;
    put(out, b".")?;
    put_number(out, span.tenths)?;
    put(out, b" s")
}

// The cue of an attempt, if the line has it.
fn put_cue(out: &mut Vec<u8>, cue: Option<CueNo>) -> Result<(), AllocError>
    ensures { OnOk result (out.new.items ≡ out.old.items ++ text.cue_text cue) }
{
    match cue {
        None => Ok(()),
        Some(cue) => {
            put(out, b" cue ")?;
            put(out, cue.text())
        }
    }
}

/// An attempt.
#[tactic(auto, unfolding(crate::specs::Lines::try_text))]
pub(crate) fn put_try(out: &mut Vec<u8>, attempt: Try) -> Result<(), AllocError>
    ensures { OnOk result (out.new.items ≡ out.old.items ++ text.try_text attempt) }
{
    put(out, b"attempt ")?;
    put_number(out, u64::from(attempt.number))?;
    put_cue(out, attempt.cue)
}

// The word for an order.
fn order_words(kind: OrderKind) -> &'static [u8]
    ensures { result.now ≡ text.order_words kind }
{
    match kind {
        OrderKind::Standby => b"STANDBY ",
        OrderKind::Go => b"GO ",
        OrderKind::Cancel => b"CANCEL ",
    }
}

// What is added to an order that did not leave this machine.
fn unsent_order(is_sent: bool) -> &'static [u8]
    ensures { result.now ≡ text.unsent_order is_sent }
{
    if is_sent { b"" } else { b", it was not sent" }
}

// Where an order goes.
fn put_to(out: &mut Vec<u8>, order: &Ordered) -> Result<(), AllocError>
    ensures { OnOk result (out.new.items ≡ out.old.items ++ text.to_text order.now) }
{
    put(out, b" device ")?;
    put_number(out, u64::from(order.device.number()))?;
    put(out, b" at ")?;
    put_number(out, u64::from(order.port))?;
    put(out, unsent_order(order.is_sent))
}

// An order.
#[tactic(auto, unfolding(crate::specs::Lines::order_text))]
fn put_order(out: &mut Vec<u8>, order: &Ordered) -> Result<(), AllocError>
    ensures { OnOk result (out.new.items ≡ out.old.items ++ text.order_text order.now) }
{
    put(out, order_words(order.kind))?;
    put_try(out, order.attempt)?;
    put_to(out, order)
}

/// The number of a device between words.
pub(crate) fn put_device(
    out: &mut Vec<u8>,
    front: &[u8],
    device: DeviceNo,
    back: &[u8],
) -> Result<(), AllocError>
    ensures { OnOk result (out.new.items ≡ out.old.items ++ (front.now ++ (decimal device ++ back.now))) }
{
    put(out, front)?;
    put_number(out, u64::from(device.number()))?;
    put(out, back)
}

// Why a preparation was given up.
fn put_why(out: &mut Vec<u8>, why: Why) -> Result<(), AllocError>
    ensures { OnOk result (out.new.items ≡ out.old.items ++ text.why_text why) }
{
    match why {
        Why::Aborted(device) => put_device(out, b"device ", device, b" aborted"),
        Why::Released(device) => put_device(out, b"device ", device, b" was released"),
        Why::Said(reason) => put(out, reason_words(reason).as_bytes()),
    }
}

// A time between words.
fn put_between(out: &mut Vec<u8>, front: &[u8], span: Span, back: &[u8]) -> Result<(), AllocError>
    ensures { OnOk result (out.new.items ≡ out.old.items ++ (front.now ++ (text.span_text span ++ back.now))) }
{
    put(out, front)?;
    put_span(out, span)?;
    put(out, back)
}

// How long it was after the standby.
#[tactic(auto, unfolding(crate::specs::Lines::after_text))]
fn put_after(out: &mut Vec<u8>, span: Span) -> Result<(), AllocError>
    ensures { OnOk result (out.new.items ≡ out.old.items ++ text.after_text span) }
{
    put_between(out, b", ", span, b" after standby")
}

// How an attempt ended, and when.
#[tactic(auto, unfolding(crate::specs::Lines::ending_text))]
fn put_ending(out: &mut Vec<u8>, end: &Ended<'_>) -> Result<(), AllocError>
    ensures { OnOk result (out.new.items ≡ out.old.items ++ text.ending_text end.now) }
{
    put(out, outcome_words(end.outcome).as_bytes())?;
    put(out, end.failures.bytes())?;
    put_after(out, end.span)
}

// An attempt that has ended.
#[tactic(auto, unfolding(crate::specs::Lines::end_text))]
fn put_end(out: &mut Vec<u8>, end: &Ended<'_>) -> Result<(), AllocError>
    ensures { OnOk result (out.new.items ≡ out.old.items ++ text.end_text end.now) }
{
    put(out, b"END ")?;
    put_try(out, end.attempt)?;
    put(out, b": ")?;
    put_ending(out, end)
}

// Commands that were refused, and why the first of them was.
fn put_refusals(out: &mut Vec<u8>, count: u16, code: u16) -> Result<(), AllocError>
    ensures { OnOk result (out.new.items ≡ out.old.items ++ text.refused_text (refused.Some count code)) }
{
    put(out, b" refused ")?;
    put_number(out, u64::from(count))?;
    put(out, b", code ")?;
    put_number(out, u64::from(code))?;
    put(out, b", ")?;
    put(out, code_words(i32::from(code)).as_bytes())
}

// What is said of so many others.
fn others_text(count: u16) -> &'static [u8]
    ensures { result.now ≡ text.others_text count }
{
    if count == 1 {
        b" other did not apply"
    } else {
        b" others did not apply"
    }
}

// What was made nothing of.
fn put_refused(out: &mut Vec<u8>, refused: Refused) -> Result<(), AllocError>
    ensures { OnOk result (out.new.items ≡ out.old.items ++ text.refused_text refused) }
{
    match refused {
        Refused::Nothing => put(out, b" refused 0"),
        Refused::Some { count, code } => put_refusals(out, count, code),
        Refused::Aside(count) => {
            put(out, b", ")?;
            put_number(out, u64::from(count))?;
            put(out, others_text(count))
        }
    }
}

// How many commands became what.
#[tactic(auto, unfolding(crate::specs::Lines::counts_text))]
fn put_counts(out: &mut Vec<u8>, asked: &Asked<'_>) -> Result<(), AllocError>
    ensures { OnOk result (out.new.items ≡ out.old.items ++ text.counts_text asked.now) }
{
    put(out, b": made ")?;
    put_number(out, u64::from(asked.made))?;
    put(out, b" known ")?;
    put_number(out, u64::from(asked.known))?;
    put_refused(out, asked.refused)
}

// What is added to a reply.
fn put_more(out: &mut Vec<u8>, more: &[u8]) -> Result<(), AllocError>
    ensures { OnOk result (out.new.items ≡ out.old.items ++ text.more_text more.now) }
{
    match more {
        [] => Ok(()),
        [_, ..] => {
            put(out, b": ")?;
            put(out, more)
        }
    }
}

// A reply, without who asked and whether it left.
fn put_body(out: &mut Vec<u8>, asked: &Asked<'_>) -> Result<(), AllocError>
    ensures { OnOk result (out.new.items ≡ out.old.items ++ text.body_text asked.now) }
{
    put(out, asked.address.bytes())?;
    put_counts(out, asked)?;
    put_more(out, asked.more.bytes())
}

// What is added to a reply that did not leave this machine.
fn unsent_reply(is_sent: bool) -> &'static [u8]
    ensures { result.now ≡ text.unsent_reply is_sent }
{
    if is_sent {
        b""
    } else {
        b", the reply was not sent"
    }
}

/// Writes a reply after what stands there.
#[tactic(auto, unfolding(crate::specs::Lines::asked_text))]
pub fn put_asked(out: &mut Vec<u8>, asked: &Asked<'_>) -> Result<(), AllocError>
    ensures { OnOk result (out.new.items ≡ out.old.items ++ text.asked_text asked.now) }
{
    put_number(out, u64::from(asked.port))?;
    put(out, b" asked ")?;
    put_body(out, asked)?;
    put(out, unsent_reply(asked.is_sent))
}

// One time or more.
fn times_text(times: u64) -> &'static [u8]
    ensures { result.now ≡ text.times_text times }
{
    if times == 1 {
        b" time more in "
    } else {
        b" times more in "
    }
}

/// Writes for how many a line stands, after that line.
#[tactic(auto, unfolding(crate::specs::Lines::count_text))]
pub fn put_count(out: &mut Vec<u8>, count: Count) -> Result<(), AllocError>
    ensures { OnOk result (out.new.items ≡ out.old.items ++ text.count_text count) }
{
    put(out, b", ")?;
    put_number(out, count.times)?;
    put(out, times_text(count.times))?;
    put_span(out, count.span)
}

// Where it listens.
#[tactic(auto, unfolding(crate::specs::Lines::home_text))]
fn put_home(out: &mut Vec<u8>, port: u16) -> Result<(), AllocError>
    ensures { OnOk result (out.new.items ≡ out.old.items ++ text.home_text port) }
{
    put(out, b" at 127.0.0.1:")?;
    put_number(out, u64::from(port))
}

// What is served, after words, and where it listens.
fn put_served(out: &mut Vec<u8>, front: &[u8], dir: &[u8], port: u16) -> Result<(), AllocError>
    ensures { OnOk result (out.new.items ≡ out.old.items ++ (front.now ++ (dir.now ++ text.home_text port))) }
{
    put(out, front)?;
    put(out, dir)?;
    put_home(out, port)
}

// A time in which nothing was taken.
fn put_held_up(out: &mut Vec<u8>, span: Span) -> Result<(), AllocError>
    ensures { OnOk result (out.new.items ≡ out.old.items
        ++ (codes "held up for " ++ (text.span_text span ++ codes ": what came in that time waited"))) }
{
    put_between(
        out,
        b"held up for ",
        span,
        b": what came in that time waited",
    )
}

// A reply, and for how many it stands.
fn put_replied(out: &mut Vec<u8>, asked: &Asked<'_>, count: Option<Count>) -> Result<(), AllocError>
    ensures { OnOk result (out.new.items ≡ out.old.items ++ (text.asked_text asked.now ++ text.counted_text count)) }
{
    put_asked(out, asked)?;
    match count {
        None => Ok(()),
        Some(count) => put_count(out, count),
    }
}

// The one device that is required.
#[tactic(auto, unfolding(crate::specs::Lines::alone_text))]
fn put_required(out: &mut Vec<u8>, device: DeviceNo) -> Result<(), AllocError>
    ensures { OnOk result (out.new.items ≡ out.old.items ++ text.alone_text device) }
{
    put_device(out, b": device ", device, b" alone is required")
}

// An attempt that hangs on one device.
fn put_alone(out: &mut Vec<u8>, attempt: Try, device: DeviceNo) -> Result<(), AllocError>
    ensures { OnOk result (out.new.items
        ≡ out.old.items ++ (codes "STANDBY " ++ (text.try_text attempt ++ text.alone_text device))) }
{
    put(out, b"STANDBY ")?;
    put_try(out, attempt)?;
    put_required(out, device)
}

// An attempt that is given up.
fn put_given_up(out: &mut Vec<u8>, attempt: Try, why: Why) -> Result<(), AllocError>
    ensures { OnOk result (out.new.items
        ≡ out.old.items ++ (codes "CANCEL " ++ (text.try_text attempt ++ (codes ": " ++ text.why_text why)))) }
{
    put(out, b"CANCEL ")?;
    put_try(out, attempt)?;
    put(out, b": ")?;
    put_why(out, why)
}

// Refusals of several kinds.
fn put_kinds(out: &mut Vec<u8>, count: Count) -> Result<(), AllocError>
    ensures { OnOk result (out.new.items
        ≡ out.old.items ++ (codes "refused: of several kinds" ++ text.count_text count)) }
{
    put(out, b"refused: of several kinds")?;
    put_count(out, count)
}

/// Writes a line after what stands there.
#[tactic(auto, unfolding(crate::specs::Lines::write))]
pub fn put_line(out: &mut Vec<u8>, line: &Line<'_>) -> Result<(), AllocError>
    ensures { OnOk result (out.new.items ≡ out.old.items ++ text.write line.now) }
{
    match line {
        Line::Ready { dir, port } => put_served(out, b"cuectl: ready, ", dir.bytes(), *port),
        Line::Stopped => put(out, b"cuectl: stopped"),
        Line::Own(said) => put_both(out, b"cuectl: ", said.bytes()),
        Line::Recovered(list) => put_both(out, b"recovered: ", list.bytes()),
        Line::HeldUp(span) => put_held_up(out, *span),
        Line::Replied(asked, count) => put_replied(out, asked, *count),
        Line::Kinds(count) => put_kinds(out, *count),
        Line::Ordered(order) => put_order(out, order),
        Line::Alone(attempt, device) => put_alone(out, *attempt, *device),
        Line::GivenUp(attempt, why) => put_given_up(out, *attempt, *why),
        Line::Ended(end) => put_end(out, end),
    }
}

/// The bytes of a line.
pub fn write(alloc: Global, line: &Line<'_>) -> Result<Vec<u8>, AllocError>
    ensures { IfOk result (λ out. out.items ≡ text.write line.now) }
{
    let mut out = Vec::with_capacity(alloc, LINE)?;
    put_line(&mut out, line)?;
    Ok(out)
}
