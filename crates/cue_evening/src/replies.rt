//! The lines of replies.
ghost use Rattle.std.specs.Prelude.{◌≡◌, ◌++◌, ◌∷◌, ◌==◌, [], IfOk, OnOk, option_copied, position, true};
ghost use Rattle.std.specs.Char.Escape.{escape_ascii};
ghost use Rattle.std.specs.List.{flat_map};
ghost use Rattle.std.specs.Option.{option_map};
ghost use Rattle.cue_exchange.specs.Live.{attempt_of_cue};
ghost use Rattle.cue_evening.specs.LinesOf as lines;
ghost use Rattle.cue_evening.specs.Replies as spec;

use crate::busy::{held_device, waiting_devices};
use crate::made::push_made;
use crate::names::{push_between, push_devices, push_number};
use cue_core::{Code, Event, State};
use cue_engine::Reply;
use cue_exchange::Attempt;
use cue_log_lines::listed::Cause;
use cue_log_lines::{Asked, Line, Refused, Text};
use cue_show::{CueNo, DeviceNo};
use std::alloc::{AllocError, Global};

// Whether an address speaks to many.
fn is_wide(address: &[u8]) -> bool
    ensures { result ≡ lines.is_wide address.now }
{
    address
        .iter()
        .any(|x| *x == b'?' || *x == b'*' || *x == b'[' || *x == b'{')
}

// Whether something was refused, and the first with this code.
fn is_refused(reply: &Reply, code: Code) -> bool
    ensures { result ≡ lines.is_refused reply.now code }
{
    reply.counts.refused > 0 && reply.code == u16::from(code.number())
}

// Whether the address speaks to many, and what was not made of it is no refusal in words: nothing was stood by
// there, or the arguments were those of another method.
fn has_bystanders(reply: &Reply) -> bool
    ensures { result ≡ lines.has_bystanders reply.now }
{
    let applies = reply.counts.made > 0 || reply.counts.known > 0;
    let is_aside = is_refused(reply, Code::NotLive) || is_refused(reply, Code::Arguments);
    applies && is_aside && is_wide(reply.address.as_slice())
}

// What a reply made nothing of.
fn refused_of(reply: &Reply) -> Refused
    ensures { result ≡ lines.refused_of reply.now }
{
    let count = reply.counts.refused;
    if count == 0 {
        Refused::Nothing
    } else if has_bystanders(reply) {
        Refused::Aside(count)
    } else {
        Refused::Some {
            count,
            code: reply.code,
        }
    }
}

/// The line of a reply, with these words for its address and for what is added.
pub fn reply_line<'a>(reply: &Reply, is_sent: bool, address: &'a [u8], more: &'a [u8]) -> Line<'a>
    ensures { result ≡ lines.reply_line reply.now is_sent address.now more.now }
{
    Line::Replied(
        Asked {
            port: reply.port,
            address: Text::new(address),
            made: reply.counts.made,
            known: reply.counts.known,
            refused: refused_of(reply),
            more: Text::new(more),
            is_sent,
        },
        None,
    )
}

// Where the first slash of a text stands.
fn slash_in(text: &[u8]) -> Option<usize>
    ensures { result ≡ position (λ b. b == 47) text.now }
{
    text.iter().position(|x| *x == b'/')
}

// The cue whose number stands before the first slash of a text, and what stands from that on.
fn cue_before(text: &[u8]) -> Option<(CueNo, &[u8])>
    ensures { option_map (λ x. (x.0, x.1.now)) result ≡ spec.cue_before text.now (position (λ b. b == 47) text.now) }
{
    let slash = slash_in(text)?;
    let (number, method) = text.split_at_checked(slash)?;
    Some((CueNo::read(number)?, method))
}

// The cue that an address names, and the method with its slash.
#[tactic(auto, unfolding(cue_log_lines::specs::Pieces::after))]
fn cue_in(address: &[u8]) -> Option<(CueNo, &[u8])>
    ensures { option_map (λ x. (x.0, x.1.now)) result ≡ spec.cue_in address.now }
{
    cue_before(address.strip_prefix(b"/cue/".as_slice())?)
}

/// Why a device fails by what this address asks for.
pub fn cause_in(address: &[u8]) -> Cause
    ensures { result ≡ spec.cause_in address.now }
{
    if address.ends_with(b"/abort".as_slice()) {
        Cause::Aborted
    } else if address.ends_with(b"/release".as_slice()) {
        Cause::Released
    } else {
        Cause::Unseen
    }
}

// Whether a byte stands in a line as it is.
fn is_plain(byte: u8) -> bool
    ensures { result ≡ true → escape_ascii byte ≡ byte ∷ [] }
{
    matches!(byte, b' '..=b'~') && !matches!(byte, b'\\' | b'\'' | b'"')
}

// Writes a byte as a terminal may get it.
fn push_byte(text: &mut Vec<u8>, byte: u8) -> Result<(), AllocError>
    ensures { OnOk result (text.new.items ≡ text.old.items ++ escape_ascii byte) }
{
    if is_plain(byte) {
        text.push(byte)?;
        return Ok(());
    }
    let mut rest = byte.escape_ascii();
    while let Some(sign) = rest.next() {
        text.push(sign)?;
    }
    Ok(())
}

// Writes bytes as a terminal may get them.
fn push_bytes(text: &mut Vec<u8>, bytes: &[u8]) -> Result<(), AllocError>
    ensures { OnOk result (text.new.items ≡ text.old.items ++ flat_map escape_ascii bytes.now) }
{
    for byte in bytes {
        push_byte(text, *byte)?;
    }
    Ok(())
}

/// A reply, and what its line adds to its numbers.
#[derive(Drop)]
pub struct Answer<'a> {
    pub reply: &'a Reply,
    /// Whether the reply left.
    pub is_sent: bool,
    /// The events that its commands made.
    pub made: &'a [Event],
    /// The state on which its commands were judged, if that is known.
    pub state: Option<&'a State>,
}

impl Answer<'_> {
    /// Whether the log says something of it: it made or refused something, or did not leave.
    pub fn is_told(&self) -> bool
        ensures { result ≡ spec.is_told self.now.reply.now.counts self.now.is_sent }
    {
        let counts = self.reply.counts;
        counts.made != 0 || counts.refused != 0 || !self.is_sent
    }

    /// The address as its line has it.
    pub fn address(&self, alloc: Global) -> Result<Vec<u8>, AllocError>
        ensures { IfOk result (λ text. text.items ≡ spec.address_text self.now.reply.now.address) }
    {
        let mut text = Vec::new(alloc);
        match self.reply.address.as_slice() {
            [] => text.extend_from_slice(b"-")?,
            address => push_bytes(&mut text, address)?,
        }
        Ok(text)
    }

    /// What was made of the show, or who keeps the command from being made; empty if neither is known.
    pub fn more(&self, alloc: Global) -> Result<Vec<u8>, AllocError>
        ensures { IfOk result (λ text. text.items ≡
            spec.more_of (option_copied self.now.state) self.now.reply.now self.now.made.now) }
    {
        let mut more = Vec::new(alloc);
        push_why(alloc, &mut more, self.state, self.reply)?;
        let is_wide = is_wide(self.reply.address.as_slice());
        push_made(alloc, &mut more, is_wide, self.made)?;
        Ok(more)
    }
}

// ---- who keeps a command from being made

/// What keeps a command at a cue from being made.
#[derive(Clone, Copy)]
pub enum Hindrance {
    /// It is a GO, and not every device is ready.
    Late,
    /// It is a STANDBY or a removal, and the cue or a device of it is in an attempt.
    Busy,
    /// Something else, or nothing.
    Other,
}

// What keeps a command with this method from being made.
fn hindrance_of(reply: &Reply, method: &[u8]) -> Hindrance
    ensures { result ≡ spec.hindrance_of reply.now method.now }
{
    if is_refused(reply, Code::NotReady) && method == b"/go".as_slice() {
        Hindrance::Late
    } else if is_refused(reply, Code::Busy)
        && (method == b"/standby".as_slice() || method == b"/remove".as_slice())
    {
        Hindrance::Busy
    } else {
        Hindrance::Other
    }
}

// Who keeps the command of a reply from being made, if its state is known.
fn push_why(
    alloc: Global,
    more: &mut Vec<u8>,
    state: Option<&State>,
    reply: &Reply,
) -> Result<(), AllocError>
    ensures { OnOk result (more.new.items ≡ more.old.items ++ spec.why_of (option_copied state.entry) reply.now) }
{
    let Some(state) = state else {
        return Ok(());
    };
    match cue_in(reply.address.as_slice()) {
        Some((cue, method)) => push_keeper(alloc, more, state, cue, hindrance_of(reply, method)),
        None => Ok(()),
    }
}

// Who keeps a command at a cue from being made.
fn push_keeper(
    alloc: Global,
    more: &mut Vec<u8>,
    state: &State,
    cue: CueNo,
    hindrance: Hindrance,
) -> Result<(), AllocError>
    ensures { OnOk result (more.new.items ≡ more.old.items ++ spec.why_text state.now cue hindrance) }
{
    match hindrance {
        Hindrance::Late => push_late(alloc, more, state.live().of_cue(cue)),
        Hindrance::Busy => push_busy(more, state, cue),
        Hindrance::Other => Ok(()),
    }
}

// Why a GO comes too early.
fn push_late(alloc: Global, more: &mut Vec<u8>, attempt: Option<&Attempt>) -> Result<(), AllocError>
    ensures { OnOk result (more.new.items ≡ more.old.items ++ spec.late_text (option_copied attempt.entry)) }
{
    match attempt {
        Some(attempt) if attempt.stage.is_cancelling() => {
            more.extend_from_slice(b"the attempt was given up")
        }
        Some(attempt) => push_waiting(more, &waiting_devices(alloc, attempt)?),
        None => Ok(()),
    }
}

fn push_waiting(more: &mut Vec<u8>, devices: &[DeviceNo]) -> Result<(), AllocError>
    ensures { OnOk result (more.new.items ≡ more.old.items ++ spec.waiting_for devices.now) }
{
    if devices.is_empty() {
        return Ok(());
    }
    more.extend_from_slice(b"waiting for ")?;
    push_devices(more, devices)?;
    Ok(())
}

// The attempt that a cue is in, else the device of it that is in one.
fn push_busy(more: &mut Vec<u8>, state: &State, cue: CueNo) -> Result<(), AllocError>
    ensures { OnOk result (more.new.items ≡
        more.old.items ++ spec.busy_text state.now cue (attempt_of_cue state.now.live cue)) }
{
    match state.live().of_cue(cue) {
        Some(attempt) => push_taken(more, cue, attempt.seq),
        None => push_holder(more, state, cue),
    }
}

// A cue, and the attempt that it is in.
#[tactic(auto, unfolding(crate::specs::Replies::taken_text))]
fn push_taken(more: &mut Vec<u8>, cue: CueNo, seq: u32) -> Result<(), AllocError>
    ensures { OnOk result (more.new.items ≡ more.old.items ++ spec.taken_text cue seq) }
{
    push_between(more, b"cue ", &cue, b" is in attempt ")?;
    push_number(more, u64::from(seq))
}

// The device of the cue that is in an attempt, and that attempt.
fn holder_of(state: &State, cue: CueNo) -> Option<(DeviceNo, &Attempt)>
    ensures { option_map (λ x. (x.0, x.1.now)) result ≡ spec.holder_of state.now cue }
{
    let parts = state.show().parts(cue)?;
    let device = held_device(state.live(), parts.as_slice())?;
    Some((device, state.live().of_device(device)?))
}

// The same in words.
fn push_holder(more: &mut Vec<u8>, state: &State, cue: CueNo) -> Result<(), AllocError>
    ensures { OnOk result (more.new.items ≡ more.old.items ++ spec.holder_text (spec.holder_of state.now cue)) }
{
    match holder_of(state, cue) {
        Some((device, attempt)) => push_held(more, device, attempt),
        None => Ok(()),
    }
}

// A device, and the attempt that it is in.
#[tactic(auto, unfolding(crate::specs::Replies::held_text))]
fn push_held(more: &mut Vec<u8>, device: DeviceNo, attempt: &Attempt) -> Result<(), AllocError>
    ensures { OnOk result (more.new.items ≡ more.old.items ++ spec.held_text device attempt.now) }
{
    push_between(more, b"device ", &device, b" is in attempt ")?;
    push_number(more, u64::from(attempt.seq))?;
    more.extend_from_slice(b" of cue ")?;
    more.extend_from_slice(attempt.cue.text())
}
