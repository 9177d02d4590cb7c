//! What is wrong, in words.
ghost use Rattle.std.specs.Prelude.{◌≡◌, IfOk, string_bytes};
ghost use Rattle.cue_board.specs.Alarms as alarms;

use crate::times::seconds;
use cue_view::view::{Alarm, Trouble};
use std::alloc::{AllocError, Global};

// Why the store cannot be read.
fn trouble_words(trouble: Trouble) -> &'static str
    ensures { result.now ≡ alarms.trouble_words trouble }
{
    match trouble {
        Trouble::Missing => "the store cannot be read: a file of it is not there",
        Trouble::Refused => "the store cannot be read: the system refuses it, or it is no store",
        Trouble::Changing => "the store cannot be read: it changes faster than it is read",
        Trouble::Memory => "the store cannot be read: memory ran out",
    }
}

// Nobody has answered a status that was asked since then.
fn silent_words(alloc: Global, asked: Option<u64>, at: u64, port: u16) -> Result<String, AllocError>
    ensures { IfOk result (λ text. string_bytes text ≡ alarms.silent_words port at asked) }
{
    match asked {
        Some(asked) => {
            let old = seconds(alloc, at.saturating_sub(asked))?;
            let old = old.as_str();
            format!(in alloc; "serve does not answer at 127.0.0.1:{port}: no answer for {old} s")
        }
        None => format!(in alloc;
            "serve does not answer at 127.0.0.1:{port}: it has not answered yet"
        ),
    }
}

// The store was read last then.
fn old_words(alloc: Global, read: Option<u64>, at: u64) -> Result<String, AllocError>
    ensures { IfOk result (λ text. string_bytes text ≡ alarms.old_words at read) }
{
    match read {
        Some(read) => {
            let old = seconds(alloc, at.saturating_sub(read))?;
            let old = old.as_str();
            format!(in alloc; "the store was read last {old} s ago")
        }
        None => String::from_str(alloc, "the store has not been read yet"),
    }
}

// The relay has written nothing new since then.
fn stopped_words(alloc: Global, since: u64, at: u64) -> Result<String, AllocError>
    ensures { IfOk result (λ text. string_bytes text ≡ alarms.stopped_words at since) }
{
    let old = seconds(alloc, at.saturating_sub(since))?;
    let old = old.as_str();
    format!(in alloc; "the relay has stopped: it has said nothing new for {old} s")
}

/// What is wrong, in words. `at` is the moment of its view, and `port` that of the controller. Names of the show file
/// are not in it.
pub fn alarm_words(alloc: Global, alarm: Alarm, at: u64, port: u16) -> Result<String, AllocError>
    ensures { IfOk result (λ text. string_bytes text ≡ alarms.alarm_words port at alarm) }
{
    match alarm {
        Alarm::NobodyListens => {
            format!(in alloc; "nobody listens at 127.0.0.1:{port}: serve is not running there")
        }
        Alarm::Silent(asked) => silent_words(alloc, asked, at, port),
        Alarm::OtherStore(_) => {
            format!(in alloc; "these files are not those of the serve at port {port}")
        }
        Alarm::NotShown(_) => {
            format!(in alloc;
                "serve at port {port} says that the last press was carried out, and the store does not show it"
            )
        }
        Alarm::RelayStopped(since) => stopped_words(alloc, since, at),
        Alarm::Unread(trouble) => String::from_str(alloc, trouble_words(trouble)),
        Alarm::Old(read) => old_words(alloc, read, at),
        Alarm::ClockPutBack(attempt) => {
            format!(in alloc;
                "the clock was put back: the ten seconds of attempt {attempt} are over"
            )
        }
        Alarm::Failed(attempt) => format!(in alloc; "attempt {attempt} failed"),
        Alarm::DeviceSilent(device) => {
            let device = device.number();
            format!(in alloc; "device {device} is silent")
        }
    }
}
