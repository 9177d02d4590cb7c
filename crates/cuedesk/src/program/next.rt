//! The words `standby` and `go` without a number, and `go --wait`: a press at a desk without a browser.
use super::opening::{groups_and_port, open_desk};
use cue_buttons_run::Hand;
use cue_desk::ending::Ending;
use cue_desk_line::Pressed;
use cue_desk_run::Sources;
use cue_show_file::Group;
use std::fs::{File, Files};
use std::io::{Eprint, Write};
use std::net::Net;
use std::time::Clock;

/// How many milliseconds a second has.
const SECOND: u64 = 1_000;

// The hand of a desk at a controller's port, where these cues stand by together.
fn open_hand<'a, R: Files<File = File> + Net + Clock + Eprint + AllocGlobal>(
    rt: &'a R,
    pressed: &'a Pressed,
    together: &'a [Group],
    port: u16,
) -> Result<Hand<'a, R>, Ending> {
    let sources = Sources {
        dir: pressed.dir.as_str(),
        port,
        relay: None,
        name: pressed.name,
        together,
    };
    let wait = pressed.wait.map(|seconds| seconds.saturating_mul(SECOND));
    let desk = open_desk(rt, &sources)?;
    Ok(Hand::new(rt, desk, pressed.intent, wait, port))
}

/// The commands `standby` without a number, and `go` without one or with `--wait`: what the desk would press, and what
/// became of it.
pub fn press_word<R: Files<File = File> + Net + Clock + Eprint + AllocGlobal, W: Write>(
    rt: &R,
    pressed: &Pressed,
    writer: &mut W,
) -> Result<(), Ending> {
    let (together, port) = groups_and_port(rt, pressed.file.as_deref(), pressed.port)?;
    let mut hand = open_hand(rt, pressed, &together, port)?;
    let became = hand.press_once(writer);
    drop(hand);
    became
}
