//! Writing events, each after what stands already.
ghost use Rattle.std.specs.Prelude.{◌≡◌, ◌++◌, IsTrue, OnOk};
ghost use Rattle.std.specs.List.{flat_map, list_all};
ghost use Rattle.cue_records.specs.Batch.{is_event, event_text, body_text};
ghost use Rattle.cue_records.specs.Fields.{number_text, time_text, text_text};

use crate::batch::kind::event_number;
use crate::fields::{put_byte, put_cue, put_entry, put_new_cue, put_numbered, reason_number};
use crate::parts_form::PartsForm;
use cue_core::Event;
use cue_show::CueNo;
use std::alloc::AllocError;

/// The events, one after the other.
pub(crate) fn put_events(out: &mut Vec<u8>, events: &[Event]) -> Result<(), AllocError>
    requires { IsTrue (list_all is_event events.now) }
    ensures { OnOk result (out.new.items ≡ out.old.items ++ flat_map event_text events.now) }
{
    for event in events {
        put_event(out, event)?;
    }
    Ok(())
}

fn put_event(out: &mut Vec<u8>, event: &Event) -> Result<(), AllocError>
    requires { IsTrue (is_event event.now) }
    ensures { OnOk result (out.new.items ≡ out.old.items ++ event_text event.now) }
{
    out.push(event_number(event))?;
    put_body(out, event)
}

// What stands after the number of an event's kind.
fn put_body(out: &mut Vec<u8>, event: &Event) -> Result<(), AllocError>
    requires { IsTrue (is_event event.now) }
    ensures { OnOk result (out.new.items ≡ out.old.items ++ body_text event.now) }
{
    match event {
        Event::Device(device, port) => put_entry(out, *device, *port),
        Event::NoDevice(device) => put_byte(out, device.number()),
        Event::Cue(cue, parts) => put_new_cue(out, PartsForm::of_parts(parts), *cue, parts),
        Event::NoCue(cue) => put_cue(out, *cue),
        Event::Place(cue) => put_cue(out, *cue),
        Event::Start(seq, cue, deadline) => put_start(out, *seq, *cue, *deadline),
        Event::Ready(seq, device) => put_numbered(out, *seq, device.number()),
        Event::Go(seq) => out.extend_from_slice(&seq.to_be_bytes()),
        Event::Done(seq, device) => put_numbered(out, *seq, device.number()),
        Event::Cancel(seq, reason) => put_numbered(out, *seq, reason_number(*reason)),
        Event::LetGo(seq, device) => put_numbered(out, *seq, device.number()),
        Event::Failed(seq, device) => put_numbered(out, *seq, device.number()),
        Event::Excuse(seq, device) => put_numbered(out, *seq, device.number()),
    }
}

// A number, a cue and a time.
fn put_start(out: &mut Vec<u8>, seq: u32, cue: CueNo, deadline: u64) -> Result<(), AllocError>
    ensures { OnOk result (out.new.items ≡ out.old.items
        ++ (number_text seq ++ (text_text cue ++ time_text deadline))) }
{
    out.extend_from_slice(&seq.to_be_bytes())?;
    put_cue(out, cue)?;
    out.extend_from_slice(&deadline.to_be_bytes())
}
