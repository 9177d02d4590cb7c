//! What the show file calls the cues and devices, and how a cue is marked there.
//!
//! The whole file is told, entry by entry: the stack is shown whole, and to look each of its cues up would take as many
//! steps as it has pairs of cues.
use cue_board::Names;
use cue_show_file::{CueEntry, DeviceEntry, cue_text};
use cue_words::shown_text;
use serde_json::{Value, json};
use std::alloc::{AllocError, Global};

// A text of the file, as a screen may get it; empty if there is none.
fn text_of(alloc: Global, text: &Option<String>) -> Result<String, AllocError> {
    match text {
        Some(text) => shown_text(alloc, text.as_str()),
        None => Ok(String::new(alloc)),
    }
}

// A word that may be missing; null if it is.
fn word_value(alloc: Global, word: Option<&str>) -> Result<Value, AllocError> {
    match word {
        Some(word) => Ok(Value::String(String::from_str(alloc, word)?)),
        None => Ok(Value::Null),
    }
}

// A cue: its number, name and note, its colour and its flag.
fn cue_value(alloc: Global, cue: &CueEntry) -> Result<Value, AllocError> {
    let (name, note) = (text_of(alloc, &cue.name)?, text_of(alloc, &cue.note)?);
    let color = word_value(alloc, cue.color.map(|color| color.word()))?;
    let flag = word_value(alloc, cue.flag.map(|flag| flag.word()))?;
    let (number, name, note) = (cue_text(&cue.number), name.as_str(), note.as_str());
    json!(in alloc; {"color": color, "cue": number, "flag": flag, "name": name, "note": note})
}

// A device: its number and its name.
fn device_value(alloc: Global, device: &DeviceEntry) -> Result<Value, AllocError> {
    let name = text_of(alloc, &device.name)?;
    let number = u64::from(device.number.number());
    json!(in alloc; {"device": number, "name": name.as_str()})
}

// The cues of the file.
fn cues_value(alloc: Global, cues: &[CueEntry]) -> Result<Value, AllocError> {
    let mut values = Vec::with_capacity(alloc, cues.len())?;
    for cue in cues {
        values.push(cue_value(alloc, cue)?)?;
    }
    Ok(Value::Array(values))
}

// The devices of the file.
fn devices_value(alloc: Global, devices: &[DeviceEntry]) -> Result<Value, AllocError> {
    let mut values = Vec::with_capacity(alloc, devices.len())?;
    for device in devices {
        values.push(device_value(alloc, device)?)?;
    }
    Ok(Value::Array(values))
}

/// What the show file calls its cues and devices, and how its cues are marked; nothing if there is no file.
pub(super) fn names_value(alloc: Global, names: &Names<'_>) -> Result<Value, AllocError> {
    let (cues, devices) = match names.file {
        Some(file) => (
            cues_value(alloc, &file.cues)?,
            devices_value(alloc, &file.devices)?,
        ),
        None => (Value::Array(Vec::new(alloc)), Value::Array(Vec::new(alloc))),
    };
    json!(in alloc; {"cues": cues, "devices": devices})
}
