//! Reading fields one after the other.
ghost use Rattle.std.specs.Prelude.{◌≡◌, List, ℕ};
ghost use Rattle.std.specs.Int.{w16, w32, w64};
ghost use Rattle.cue_records.specs.Reading.{Gives, byte_at, bytes_at, number_at, text_at, device_at, port_at};
ghost use Rattle.cue_records.specs.Reading.{sequence_at, cue_at, part_bytes_at, flag_of, flag_at, part_at};
ghost use Rattle.cue_records.specs.Reading.{part_count_at, list_at, parts_at, entry_at, new_cue_at, reason_at};
ghost use Rattle.cue_records.specs.Reading.{reason_of};

use crate::fault::ReadFault;
use crate::parts_form::PartsForm;
use cue_exchange::Reason;
use cue_exchange::limits::MAX_NUMBER;
use cue_show::limits::{MAX_PART_BYTES, MAX_PARTS};
use cue_show::{CueNo, DeviceNo, Part, Parts};
use std::alloc::Global;

/// Bytes, of which each field takes its own from the front. After a fault it is read no further.
#[derive(Drop)]
pub struct Reader<'a> {
    pub rest: &'a [u8],
}

impl<'a> Reader<'a> {
    /// One byte.
    pub(crate) fn byte(&mut self) -> Result<u8, ReadFault>
        ensures { Gives (λ x. (x, self.new.rest.now)) result (byte_at self.old.rest.now) }
    {
        match self.rest {
            [byte, rest @ ..] => {
                self.rest = rest;
                Ok(*byte)
            }
            [] => Err(ReadFault::Malformed),
        }
    }

    /// So many bytes.
    pub(crate) fn bytes(&mut self, count: usize) -> Result<&'a [u8], ReadFault>
        ensures { Gives (λ x. (x.now, self.new.rest.now)) result (bytes_at count self.old.rest.now) }
    {
        let bytes = self.rest;
        if bytes.len() < count {
            return Err(ReadFault::Malformed);
        }
        let (front, rest) = bytes.split_at(count);
        self.rest = rest;
        Ok(front)
    }

    /// Two bytes as a number.
    pub(crate) fn u16(&mut self) -> Result<u16, ReadFault>
        ensures { Gives (λ x. (x, self.new.rest.now)) result (number_at w16 self.old.rest.now) }
    {
        let b = self.bytes(2)?;
        Ok(u16::from_be_bytes([b[0], b[1]]))
    }

    /// Four bytes as a number.
    pub(crate) fn u32(&mut self) -> Result<u32, ReadFault>
        ensures { Gives (λ x. (x, self.new.rest.now)) result (number_at w32 self.old.rest.now) }
    {
        let b = self.bytes(4)?;
        Ok(u32::from_be_bytes([b[0], b[1], b[2], b[3]]))
    }

    /// Eight bytes as a number.
    pub(crate) fn u64(&mut self) -> Result<u64, ReadFault>
        ensures { Gives (λ x. (x, self.new.rest.now)) result (number_at w64 self.old.rest.now) }
    {
        let b = self.bytes(8)?;
        Ok(u64::from_be_bytes([b[0], b[1], b[2], b[3], b[4], b[5], b[6], b[7]]))
    }

    /// A length in one byte, and so many bytes.
    #[tactic(auto, unfolding(crate::specs::Reading::text_at))]
    pub(crate) fn text(&mut self) -> Result<&'a [u8], ReadFault>
        ensures { Gives (λ x. (x.now, self.new.rest.now)) result (text_at self.old.rest.now) }
    {
        let count = self.byte()?;
        self.bytes(usize::from(count))
    }

    /// A device number.
    #[tactic(auto, unfolding(crate::specs::Reading::device_at))]
    pub(crate) fn device(&mut self) -> Result<DeviceNo, ReadFault>
        ensures { Gives (λ x. (x, self.new.rest.now)) result (device_at self.old.rest.now) }
    {
        let number = self.byte()?;
        DeviceNo::of_byte(number).ok_or(ReadFault::Malformed)
    }

    /// A port.
    #[tactic(auto, unfolding(crate::specs::Reading::port_at))]
    pub(crate) fn port(&mut self) -> Result<u16, ReadFault>
        ensures { Gives (λ x. (x, self.new.rest.now)) result (port_at self.old.rest.now) }
    {
        let port = self.u16()?;
        if port < 1 {
            return Err(ReadFault::Malformed);
        }
        Ok(port)
    }

    /// The number of an attempt.
    #[tactic(auto, unfolding(crate::specs::Reading::sequence_at))]
    pub(crate) fn sequence(&mut self) -> Result<u32, ReadFault>
        ensures { Gives (λ x. (x, self.new.rest.now)) result (sequence_at self.old.rest.now) }
    {
        let seq = self.u32()?;
        if seq < 1 || MAX_NUMBER < seq {
            return Err(ReadFault::Malformed);
        }
        Ok(seq)
    }

    /// A cue number.
    #[tactic(auto, unfolding(crate::specs::Reading::cue_at))]
    pub(crate) fn cue(&mut self) -> Result<CueNo, ReadFault>
        ensures { Gives (λ x. (x, self.new.rest.now)) result (cue_at self.old.rest.now) }
    {
        let text = self.text()?;
        CueNo::read(text).ok_or(ReadFault::Malformed)
    }

    /// The reason of a cancelled attempt.
    #[tactic(auto, unfolding(crate::specs::Reading::reason_at))]
    pub(crate) fn reason(&mut self) -> Result<Reason, ReadFault>
        ensures { Gives (λ x. (x, self.new.rest.now)) result (reason_at self.old.rest.now) }
    {
        let number = self.byte()?;
        reason_of(number).ok_or(ReadFault::Malformed)
    }

    /// The bytes of a part, at most 32.
    #[tactic(auto, unfolding(crate::specs::Reading::part_bytes_at))]
    fn part_bytes(&mut self) -> Result<&'a [u8], ReadFault>
        ensures { Gives (λ x. (x.now, self.new.rest.now)) result (part_bytes_at self.old.rest.now) }
    {
        let bytes = self.text()?;
        if bytes.len() > MAX_PART_BYTES {
            return Err(ReadFault::Malformed);
        }
        Ok(bytes)
    }

    /// The flag of a part; a part without one is required.
    #[tactic(auto, unfolding(crate::specs::Reading::flag_at))]
    fn flag(&mut self, form: PartsForm) -> Result<bool, ReadFault>
        ensures { Gives (λ x. (x, self.new.rest.now)) result (flag_at form self.old.rest.now) }
    {
        match form {
            PartsForm::Plain => Ok(false),
            PartsForm::Flagged => {
                let number = self.byte()?;
                flag_of(number).ok_or(ReadFault::Malformed)
            }
        }
    }

    /// A device, its flag and its bytes.
    #[tactic(auto, unfolding(crate::specs::Reading::part_at))]
    fn part(&mut self, alloc: Global, form: PartsForm) -> Result<Part, ReadFault>
        ensures { Gives (λ x. (x, self.new.rest.now)) result (part_at form self.old.rest.now) }
    {
        let device = self.device()?;
        let optional = self.flag(form)?;
        let bytes = self.part_bytes()?;
        Ok(Part::of(alloc, device, optional, bytes)?)
    }

    /// A count of parts.
    #[tactic(auto, unfolding(crate::specs::Reading::part_count_at))]
    fn part_count(&mut self) -> Result<u8, ReadFault>
        ensures { Gives (λ x. (x, self.new.rest.now)) result (part_count_at self.old.rest.now) }
    {
        let count = self.byte()?;
        if usize::from(count) > MAX_PARTS {
            return Err(ReadFault::Malformed);
        }
        Ok(count)
    }

    /// So many parts.
    fn part_list(&mut self, alloc: Global, form: PartsForm, count: u8) -> Result<Parts, ReadFault>
        ensures { Gives (λ x. (x, self.new.rest.now)) result (list_at (part_at form) count self.old.rest.now) }
    {
        let mut parts = Parts::new(alloc);
        for _ in 0..count {
            let part = self.part(alloc, form)?;
            parts.push(part)?;
        }
        Ok(parts)
    }

    /// A count, and so many parts of distinct devices, at least one of them required.
    #[tactic(auto, unfolding(crate::specs::Reading::parts_at))]
    pub(crate) fn parts(&mut self, alloc: Global, form: PartsForm) -> Result<Parts, ReadFault>
        ensures { Gives (λ x. (x, self.new.rest.now)) result (parts_at form self.old.rest.now) }
    {
        let count = self.part_count()?;
        let parts = self.part_list(alloc, form, count)?;
        if !parts.has_required_part() || !parts.has_distinct_devices() {
            return Err(ReadFault::Malformed);
        }
        Ok(parts)
    }

    /// A device and its port.
    #[tactic(auto, unfolding(crate::specs::Reading::entry_at))]
    pub(crate) fn entry(&mut self) -> Result<(DeviceNo, u16), ReadFault>
        ensures { Gives (λ x. (x, self.new.rest.now)) result (entry_at self.old.rest.now) }
    {
        let device = self.device()?;
        let port = self.port()?;
        Ok((device, port))
    }

    /// A cue and its parts.
    #[tactic(auto, unfolding(crate::specs::Reading::new_cue_at))]
    pub(crate) fn new_cue(
        &mut self,
        alloc: Global,
        form: PartsForm,
    ) -> Result<(CueNo, Parts), ReadFault>
        ensures { Gives (λ x. (x, self.new.rest.now)) result (new_cue_at form self.old.rest.now) }
    {
        let cue = self.cue()?;
        let parts = self.parts(alloc, form)?;
        Ok((cue, parts))
    }
}

// Whether a part is optional, by the number of its flag.
fn flag_of(number: u8) -> Option<bool>
    ensures { result ≡ flag_of number }
{
    match number {
        0 => Some(false),
        1 => Some(true),
        _ => None,
    }
}

fn reason_of(number: u8) -> Option<Reason>
    ensures { result ≡ reason_of number }
{
    match number {
        1 => Some(Reason::Operator),
        2 => Some(Reason::Deadline),
        3 => Some(Reason::Abort),
        4 => Some(Reason::Power),
        5 => Some(Reason::Release),
        _ => None,
    }
}
