//! The text of what is known, which outlives the desk.
ghost use Rattle.std.specs.Prelude.{◌≡◌, ◌↔◌, ◌++◌, IfOk, IfSome, IsTrue, OnErr, OnOk, decimal, map, string_bytes};
ghost use Rattle.hex.specs.Hex.{encode_lower};
ghost use Rattle.cue_whereabouts.specs.Text as text;

use crate::last::{End, LastPart, PartBytes};
use crate::memory::{Known, Whereabouts};
use crate::telling::is_newer;
use cue_show::{CueNo, DeviceNo};
use cue_show_file::cue_text;
use itoa::Buffer;
use std::alloc::{AllocError, Global};

// ---- what is written

// A number.
fn push_number(out: &mut String, number: u32) -> Result<(), AllocError>
    ensures { OnOk result (string_bytes out.new ≡ string_bytes out.old ++ decimal number) }
{
    let mut buffer = Buffer::new();
    out.push_str(buffer.format(number))
}

// The device and its attempt.
#[tactic(auto, unfolding(crate::specs::Text::head_said))]
fn push_head(out: &mut String, device: DeviceNo, attempt: u32) -> Result<(), AllocError>
    ensures { OnOk result (string_bytes out.new ≡ string_bytes out.old ++ text.head_said device attempt) }
{
    out.push_str("device ")?;
    push_number(out, u32::from(device.number()))?;
    out.push_str(" attempt ")?;
    push_number(out, attempt)
}

// The number of a cue, if it is known.
fn push_cue(out: &mut String, cue: Option<CueNo>) -> Result<(), AllocError>
    ensures { OnOk result (string_bytes out.new ≡ string_bytes out.old ++ text.cue_said cue) }
{
    match cue {
        Some(cue) => out.push_str(cue_text(&cue)),
        None => out.push_str("none"),
    }
}

// The bytes of a part by their digits.
fn push_digits(out: &mut String, alloc: Global, bytes: PartBytes) -> Result<(), AllocError>
    ensures { OnOk result (string_bytes out.new ≡ string_bytes out.old ++ encode_lower bytes) }
{
    let digits = hex::encode(alloc, bytes.as_slice())?;
    out.push_str(digits.as_str())
}

// The bytes of a part, if they are known.
fn push_bytes(out: &mut String, alloc: Global, bytes: Option<PartBytes>) -> Result<(), AllocError>
    ensures { OnOk result (string_bytes out.new ≡ string_bytes out.old ++ text.bytes_said bytes) }
{
    match bytes {
        Some(bytes) => push_digits(out, alloc, bytes),
        None => out.push_str("none"),
    }
}

// How a part ended.
fn end_said(end: End) -> &'static str
    ensures { result.now ≡ text.end_said end }
{
    match end {
        End::CarriedOut => "carried out",
        End::Failed => "failed",
    }
}

// The cue, the bytes of its part, and how that ended.
#[tactic(auto, unfolding(crate::specs::Text::part_said))]
fn push_part(out: &mut String, alloc: Global, last: &LastPart) -> Result<(), AllocError>
    ensures { OnOk result (string_bytes out.new ≡ string_bytes out.old ++ text.part_said last.now) }
{
    out.push_str(" cue ")?;
    push_cue(out, last.cue())?;
    out.push_str(" bytes ")?;
    push_bytes(out, alloc, last.bytes())?;
    out.push_str(" ")?;
    out.push_str(end_said(last.end()))
}

// The line of a device, without its line feed.
fn push_line(
    out: &mut String,
    alloc: Global,
    device: DeviceNo,
    last: &LastPart,
) -> Result<(), AllocError>
    ensures { OnOk result (string_bytes out.new ≡ string_bytes out.old ++ text.line_of device last.now) }
{
    push_head(out, device, last.attempt())?;
    push_part(out, alloc, last)
}

// The line of a device, if something was heard of it.
fn push_known(out: &mut String, alloc: Global, known: &Known) -> Result<(), AllocError>
    ensures { OnOk result (string_bytes out.new
        ≡ string_bytes out.old ++ text.line_if known.now.device known.now.last) }
{
    if let Some(last) = &known.last {
        push_line(out, alloc, known.device, last)?;
        out.push_str("\n")?;
    }
    Ok(())
}

// The lines of all.
fn push_each(out: &mut String, alloc: Global, all: &[Known]) -> Result<(), AllocError>
    ensures { OnOk result (string_bytes out.new ≡ string_bytes out.old ++ text.text_of all.now) }
{
    for known in all {
        push_known(out, alloc, known)?;
    }
    Ok(())
}

// ---- what is read

// The device, the attempt, the cue and the bytes of a line, by its words.
fn fields_of(line: &str) -> Option<(&str, &str, &str, &str)> {
    let rest = line.strip_prefix("device ")?;
    let (device, rest) = rest.split_once(" attempt ")?;
    let (attempt, rest) = rest.split_once(" cue ")?;
    let (cue, rest) = rest.split_once(" bytes ")?;
    let (bytes, _) = rest.split_once(" ")?;
    Some((device, attempt, cue, bytes))
}

// How the part of a line ended.
fn end_in(line: &str) -> End {
    if line.ends_with(" failed") {
        End::Failed
    } else {
        End::CarriedOut
    }
}

// The bytes of these digits; none if they are no digits in pairs, or too many.
fn bytes_in(alloc: Global, digits: &str) -> Result<Option<PartBytes>, AllocError> {
    let bytes = hex::decode(alloc, digits);
    match bytes {
        Ok(bytes) => Ok(PartBytes::read(&bytes)),
        Err(hex::FromHexError::OutOfMemory) => Err(AllocError),
        Err(_) => Ok(None),
    }
}

// What a line may say. It is no more than a guess until it is compared with what is written of that.
fn guess(alloc: Global, line: &str) -> Result<Option<(DeviceNo, LastPart)>, AllocError> {
    let Some((device, attempt, cue, digits)) = fields_of(line) else {
        return Ok(None);
    };
    let (Ok(number), Ok(attempt)) = (device.parse::<u8>(), attempt.parse::<u32>()) else {
        return Ok(None);
    };
    let Some(device) = DeviceNo::of_byte(number) else {
        return Ok(None);
    };
    let (cue, bytes) = (CueNo::read(cue.as_bytes()), bytes_in(alloc, digits)?);
    let last = LastPart::of(attempt, end_in(line), cue, bytes);
    Ok(Some((device, last)))
}

// Whether the line is the one that is written of this device and its part.
fn is_line(alloc: Global, line: &str, device: DeviceNo, last: &LastPart) -> Result<bool, AllocError>
    ensures { IfOk result (λ is. IsTrue is ↔ (line.now ≡ text.line_of device last.now)) }
{
    let mut written = String::new(alloc);
    push_line(&mut written, alloc, device, last)?;
    Ok(written.as_str() == line)
}

// The device and its part that the line is written of; none if it is another line.
fn line_in(alloc: Global, line: &str) -> Result<Option<(DeviceNo, LastPart)>, AllocError>
    ensures { IfOk result (λ found. IfSome found (λ x. line.now ≡ text.line_of x.0 x.1)) }
{
    let Some((device, last)) = guess(alloc, line)? else {
        return Ok(None);
    };
    if is_line(alloc, line, device, &last)? {
        Ok(Some((device, last)))
    } else {
        Ok(None)
    }
}

// The last part is taken by the device of that number, if its attempt is newer than what is known.
fn take_part(known: &mut Known, device: DeviceNo, last: &LastPart)
    ensures { known.new ≡ text.with_part device last.now known.old }
{
    if known.device == device && is_newer(last.attempt(), &known.last) {
        known.last = Some(last.copied());
    }
}

// The same of each.
fn take_each(all: &mut Vec<Known>, device: DeviceNo, last: &LastPart)
    ensures { all.new.items ≡ map (text.with_part device last.now) all.old.items }
{
    for known in all.iter_mut() {
        take_part(known, device, last);
    }
}

impl Whereabouts {
    /// The text of what is known: a line for each device of which something was heard.
    pub fn text(&self, alloc: Global) -> Result<String, AllocError>
        ensures { IfOk result (λ out. string_bytes out ≡ text.text_of self.now) }
    {
        let mut out = String::new(alloc);
        push_each(&mut out, alloc, self.as_slice())?;
        Ok(out)
    }

    /// Hears a line of such a text, without its line feed: a newer attempt replaces an older one. Answers whether it is
    /// the line of a device; any other is passed over.
    pub fn hear_line(&mut self, alloc: Global, line: &str) -> Result<bool, AllocError>
        ensures heard { IfOk result (λ is. text.HearsLine is line.now self.old self.new) }
        ensures lost { OnErr result (self.new ≡ self.old) }
    {
        let Some((device, last)) = line_in(alloc, line)? else {
            return Ok(false);
        };
        self.take(device, last);
        Ok(true)
    }

    // Takes the last part of a device that another desk knew, or this one before it was started again.
    fn take(&mut self, device: DeviceNo, last: LastPart)
        ensures { self.new ≡ map (text.with_part device last) self.old }
    {
        take_each(&mut self.all, device, &last);
    }
}
