//! What the system says of the files of a store in a folder.
use cue_desk::stamps::{Stamp, Stamps};
use std::fs::{self, File, Files};

// What it says of the file of this name in a folder; none if it says nothing.
fn stamp_at<R: Files<File = File> + AllocGlobal>(rt: &R, dir: &str, name: &str) -> Option<Stamp> {
    let path = format!(in rt.alloc(); "{dir}/{name}").ok()?;
    let metadata = fs::metadata(rt, path.as_str()).ok()?;
    Some(Stamp::of(&metadata))
}

/// What it says of both files; none if it does not say it of both.
pub fn stamps_at<R: Files<File = File> + AllocGlobal>(rt: &R, dir: &str) -> Option<Stamps> {
    Some(Stamps {
        first: stamp_at(rt, dir, "a.area")?,
        second: stamp_at(rt, dir, "b.area")?,
    })
}
