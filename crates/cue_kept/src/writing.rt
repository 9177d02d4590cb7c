//! Writes the text of what is kept.
ghost use Rattle.std.specs.Prelude.{◌≡◌, ◌++◌, IfOk, OnOk, Some, codes, string_bytes};
ghost use Rattle.std.specs.List.{flat_map};
ghost use Rattle.cue_kept.specs.Alarms.{Fits, alarms_of};
ghost use Rattle.cue_kept.specs.Reading.{read};
ghost use Rattle.cue_kept.specs.Text as text;

use crate::VERSION;
use cue_exchange::Reason;
use cue_show::{CueNo, DeviceNo};
use cue_show_file::cue_text;
use cue_view::view::{Kept, Told};
use cue_words::{outcome_words, reason_words};
use itoa::Buffer;
use std::alloc::{AllocError, Global};

// A line: words, and what they say.
#[tactic(auto, unfolding(crate::specs::Text::line_text))]
fn put_line(out: &mut String, words: &str, said: &str) -> Result<(), AllocError>
    ensures { OnOk result (string_bytes out.new ≡ string_bytes out.old ++ text.line_text words.now said.now) }
{
    out.push_str(words)?;
    out.push_str(said)?;
    out.push_str("\n")
}

// A line of words and a number.
fn put_number(out: &mut String, words: &str, number: u64) -> Result<(), AllocError>
    ensures { OnOk result (string_bytes out.new ≡ string_bytes out.old ++ text.number_line words.now number) }
{
    let mut buffer = Buffer::new();
    put_line(out, words, buffer.format(number))
}

// How many there are of something.
fn put_count(out: &mut String, words: &str, count: usize) -> Result<(), AllocError>
    ensures { OnOk result (string_bytes out.new ≡ string_bytes out.old ++ text.number_line words.now count) }
{
    let mut buffer = Buffer::new();
    put_line(out, words, buffer.format(count))
}

// A line for each attempt.
fn put_attempts(out: &mut String, attempts: &[u32]) -> Result<(), AllocError>
    ensures { OnOk result (string_bytes out.new
        ≡ string_bytes out.old ++ flat_map text.attempt_line attempts.now) }
{
    for attempt in attempts {
        put_number(out, "attempt ", u64::from(*attempt))?;
    }
    Ok(())
}

// A line for each device.
fn put_each_device(out: &mut String, devices: &[DeviceNo]) -> Result<(), AllocError>
    ensures { OnOk result (string_bytes out.new
        ≡ string_bytes out.old ++ flat_map text.device_line devices.now) }
{
    for device in devices {
        put_number(out, "device ", u64::from(device.number()))?;
    }
    Ok(())
}

// Devices, under these words.
#[tactic(auto, unfolding(crate::specs::Text::devices_text))]
fn put_devices(out: &mut String, words: &str, devices: &[DeviceNo]) -> Result<(), AllocError>
    ensures { OnOk result (string_bytes out.new
        ≡ string_bytes out.old ++ text.devices_text words.now devices.now) }
{
    put_count(out, words, devices.len())?;
    put_each_device(out, devices)
}

// Which devices failed, and which were excused.
#[tactic(auto, unfolding(crate::specs::Text::parts_text))]
fn put_parts(out: &mut String, told: &Told) -> Result<(), AllocError>
    ensures { OnOk result (string_bytes out.new ≡ string_bytes out.old ++ text.parts_text told.now) }
{
    put_devices(out, "failed ", told.failed.as_slice())?;
    put_devices(out, "excused ", told.excused.as_slice())
}

// Why a preparation was given up, or that it was not.
fn reason_said(reason: Option<Reason>) -> &'static str
    ensures { result.now ≡ text.reason_said reason }
{
    match reason {
        Some(reason) => reason_words(reason),
        None => "none",
    }
}

// How an attempt ended, and why.
#[tactic(auto, unfolding(crate::specs::Text::end_text))]
fn put_end(out: &mut String, told: &Told) -> Result<(), AllocError>
    ensures { OnOk result (string_bytes out.new ≡ string_bytes out.old ++ text.end_text told.now) }
{
    put_line(out, "outcome ", outcome_words(told.outcome))?;
    put_line(out, "reason ", reason_said(told.reason))?;
    put_parts(out, told)
}

// The cue of an attempt, or that nobody knows it.
fn put_cue(out: &mut String, cue: Option<CueNo>) -> Result<(), AllocError>
    ensures { OnOk result (string_bytes out.new
        ≡ string_bytes out.old ++ text.line_text (codes "cue ") (text.cue_said cue)) }
{
    match cue {
        Some(cue) => put_line(out, "cue ", cue_text(&cue)),
        None => put_line(out, "cue ", "none"),
    }
}

// An attempt that ended.
#[tactic(auto, unfolding(crate::specs::Text::told_text))]
fn put_told(out: &mut String, told: &Told) -> Result<(), AllocError>
    ensures { OnOk result (string_bytes out.new ≡ string_bytes out.old ++ text.told_text told.now) }
{
    put_number(out, "attempt ", u64::from(told.seq))?;
    put_cue(out, told.cue)?;
    put_end(out, told)
}

// Each failure.
fn put_failures(out: &mut String, failures: &[Told]) -> Result<(), AllocError>
    ensures { OnOk result (string_bytes out.new
        ≡ string_bytes out.old ++ flat_map text.told_text failures.now) }
{
    for told in failures {
        put_told(out, told)?;
    }
    Ok(())
}

// The text of what is kept.
#[tactic(auto, unfolding(crate::specs::Text::write))]
fn put_alarms(out: &mut String, kept: &Kept) -> Result<(), AllocError>
    ensures { OnOk result (string_bytes out.new ≡ string_bytes out.old ++ text.write (alarms_of kept.now)) }
{
    put_number(out, "alarms ", u64::from(VERSION))?;
    put_count(out, "seen ", kept.seen.len())?;
    put_attempts(out, &kept.seen)?;
    put_count(out, "failures ", kept.failed.len())?;
    put_failures(out, &kept.failed)
}

/// The text of what is kept. It is read back, whole, if at most 128 of a kind are kept: a desk keeps fewer.
pub fn write(alloc: Global, kept: &Kept) -> Result<String, AllocError>
    ensures text { IfOk result (λ out. string_bytes out ≡ text.write (alarms_of kept.now)) }
    ensures reads_back { Fits (alarms_of kept.now)
        → IfOk result (λ out. read (string_bytes out) ≡ Some (alarms_of kept.now)) }
{
    let mut out = String::new(alloc);
    put_alarms(&mut out, kept)?;
    Ok(out)
}
