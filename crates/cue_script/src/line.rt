// The lines of a script, and what each stands for.
ghost use Rattle.std.specs.Prelude.{◌≡◌, ℕ, ◌<◌, ◌≤◌, ◌^◌, ◌∷◌, length, IfOk, IfSome};
ghost use Rattle.std.specs.Option.{option_map};
ghost use Rattle.cue_script.specs.Endings.{is_out_of_memory};
ghost use Rattle.cue_script.specs.ScriptLines.{
  lines_of,
  cut_at,
  number_in,
  heading_in,
  arrival_in,
  tick_in,
  happening_in,
};
ghost use Rattle.cue_script.specs.ScriptViews.{cut_view, heading_view, arrival_view, line_view};

use hex::FromHexError;
use memchr::memchr;
use std::alloc::{AllocError, Global};

/// A datagram that arrives: at a time in milliseconds since 1970, from a port of this machine.
#[derive(Debug, Drop)]
pub struct Arrival {
    pub now: u64,
    pub from: u16,
    pub bytes: Vec<u8>,
}

/// What a line of a script stands for.
#[derive(Debug, Drop)]
pub enum ScriptLine {
    /// A datagram arrives.
    Datagram(Arrival),
    /// The clock ticks, at a time in milliseconds since 1970.
    Tick(u64),
    /// Power is lost.
    PowerLoss,
}

fn cut_at(mark: u8, text: &[u8]) -> Option<(&[u8], &[u8])>
    ensures cut { option_map cut_view result ≡ cut_at mark text.now }
    ensures shorter { IfSome result (λ cut. length cut.1.now < length text.now) }
{
    match memchr(mark, text) {
        Some(place) => Some((&text[..place], &text[place + 1..])),
        None => None,
    }
}

/// The first line of a text, without its line feed, and the text after it.
pub fn first_line(text: &[u8]) -> (&[u8], &[u8])
    requires { 0 < length text.now }
    ensures line { lines_of text.now ≡ result.0.now ∷ lines_of result.1.now }
    ensures shorter { length result.1.now < length text.now }
{
    match cut_at(b'\n', text) {
        Some((line, rest)) => (line, rest),
        None => (text, &[]),
    }
}

fn number_in(most: u64, digits: &[u8]) -> Option<u64>
    ensures number { result ≡ number_in most digits.now }
    ensures bound { IfSome result (λ value. value ≤ most) }
{
    let mut value = 0u64;
    for digit in digits {
        if !digit.is_ascii_digit() {
            return None;
        }
        value = value
            .checked_mul(10)?
            .checked_add(u64::from(*digit - b'0'))?;
    }
    if digits.is_empty() || value > most {
        None
    } else {
        Some(value)
    }
}

fn heading(line: &[u8]) -> Option<(u64, u16, &[u8])>
    ensures { option_map heading_view result ≡ heading_in line.now }
{
    let words = line.strip_prefix(b"d ")?;
    let (now, rest) = cut_at(b' ', words)?;
    let (from, digits) = cut_at(b' ', rest)?;
    let time = number_in(u64::MAX, now)?;
    let port = port_in(from)?;
    Some((time, port, digits))
}

fn port_in(digits: &[u8]) -> Option<u16>
    ensures { result ≡ number_in 65535 digits.now }
{
    match number_in(u64::from(u16::MAX), digits) {
        Some(port) => Some(port as u16),
        None => None,
    }
}

// Whether digits were not decoded because memory ran out, and not for their form.
fn is_out_of_memory(error: FromHexError) -> bool
    ensures { result ≡ is_out_of_memory error }
{
    match error {
        FromHexError::OutOfMemory => true,
        FromHexError::InvalidHexCharacter { .. }
        | FromHexError::OddLength
        | FromHexError::InvalidStringLength => false,
    }
}

#[tactic(auto, unfolding(crate::specs::ScriptLines::arrival_in))]
fn read_arrival(alloc: Global, line: &[u8]) -> Result<Option<Arrival>, AllocError>
    ensures { IfOk result (λ found. option_map arrival_view found ≡ arrival_in line.now) }
{
    let Some((now, from, digits)) = heading(line) else {
        return Ok(None);
    };
    match hex::decode(alloc, digits) {
        Ok(bytes) => Ok(Some(Arrival { now, from, bytes })),
        Err(error) if is_out_of_memory(error) => Err(AllocError),
        Err(_) => Ok(None),
    }
}

#[tactic(auto, unfolding(crate::specs::ScriptLines::tick_in))]
fn read_tick(line: &[u8]) -> Option<u64>
    ensures { result ≡ tick_in line.now }
{
    let digits = line.strip_prefix(b"t ")?;
    number_in(u64::MAX, digits)
}

/// Reads a line of a script: `d NOW FROM HEX` is a datagram `HEX`, in hexadecimal digits of either case, that came at
/// the time `NOW` from the port `FROM`, `t NOW` a tick, and `x` power loss. `None` if the line has another form.
#[tactic(auto, unfolding(crate::specs::ScriptLines::happening_in))]
pub fn read_line(alloc: Global, line: &[u8]) -> Result<Option<ScriptLine>, AllocError>
    ensures { IfOk result (λ found. option_map line_view found ≡ happening_in line.now) }
{
    if line == b"x".as_slice() {
        return Ok(Some(ScriptLine::PowerLoss));
    }
    if let Some(now) = read_tick(line) {
        return Ok(Some(ScriptLine::Tick(now)));
    }
    match read_arrival(alloc, line)? {
        Some(arrival) => Ok(Some(ScriptLine::Datagram(arrival))),
        None => Ok(None),
    }
}
