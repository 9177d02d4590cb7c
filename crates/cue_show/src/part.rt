//! The parts of a cue: what each of its devices does in it.
ghost use Rattle.std.specs.Prelude.{◌≡◌, ◌+◌, [], ◌∷◌, ◌++◌, IfOk, OnOk, OnErr};
ghost use Rattle.std.specs.Cmp.{partial_equiv_from_equiv};
ghost use Rattle.std.specs.List.{list_all};
ghost use Rattle.cue_show.specs.Devices.{distinct, devices_in};
ghost use Rattle.cue_show.specs.Parts.{is_part, is_required_part, has_required_part, are_parts, uses, same_parts};
ghost use Rattle.cue_show.specs.Parts.{same_parts_equiv};

use crate::bytes::Bytes;
use crate::device::DeviceNo;
use crate::limits::{MAX_DEVICES, MAX_PART_BYTES, MAX_PARTS};
use std::alloc::{AllocError, Global};
use std::marker::Model;

/// What one device does in a cue: the bytes go to it with the order to stand by.
#[derive(Clone, Debug, Drop, PartialEq, Eq)]
pub struct Part {
    pub device: DeviceNo,
    /// Whether the cue may be carried out without the device, once it was excused.
    pub optional: bool,
    /// They mean something to the device alone.
    pub bytes: Bytes,
}

impl Part {
    /// The part of a device, with a copy of its bytes. It fails only if memory ran out.
    pub fn of(
        alloc: Global,
        device: DeviceNo,
        optional: bool,
        bytes: &[u8],
    ) -> Result<Part, AllocError>
        ensures { IfOk result (λ p. p ≡ record { device = device; optional = optional; bytes = bytes.now }) }
    {
        let bytes = Bytes::from_vec(Vec::from_slice(alloc, bytes)?);
        Ok(Part {
            device,
            optional,
            bytes,
        })
    }

    // Whether the cue is not carried out without the device.
    pub(crate) fn is_required(&self) -> bool
        ensures { result ≡ is_required_part self.now }
    {
        !self.optional
    }

    /// Whether the part has at most 32 bytes.
    pub fn is_fit(&self) -> bool
        ensures { result ≡ is_part self.now }
    {
        // Called for its clause that the number is in range.
        let _number = self.device.number();
        self.bytes.as_slice().len() <= MAX_PART_BYTES
    }
}

/// The parts of a cue, in order.
#[derive(Debug, Drop)]
pub struct Parts {
    parts: Vec<Part>,
}

impl Model for Parts {
    ghost use Rattle.std.specs.Prelude.{List};
    ghost use Rattle.cue_show.specs.declared.part.Part.{Part};

    ghost Value = { List Part };

    ghost view = { λ p. p.parts.items };
}

impl Parts {
    /// No part yet.
    pub fn new(alloc: Global) -> Parts
        ensures { result ≡ [] }
    {
        Parts {
            parts: Vec::new(alloc),
        }
    }

    /// The parts, kept in the memory that they have.
    pub fn of(parts: Vec<Part>) -> Parts
        ensures { result ≡ parts.items }
    {
        Parts { parts }
    }

    /// A copy of the parts. It fails only if memory ran out.
    pub fn from_slice(alloc: Global, parts: &[Part]) -> Result<Parts, AllocError>
        ensures { IfOk result (λ copy. copy ≡ parts.now) }
    {
        let mut copy = Vec::new(alloc);
        copy.extend_with_clones(parts)?;
        Ok(Parts { parts: copy })
    }

    /// Gives the memory of the parts back.
    pub fn into_vec(self) -> Vec<Part>
        ensures { result.items ≡ self }
    {
        let Parts { parts } = self;
        parts
    }

    /// The parts.
    pub fn as_slice(&self) -> &[Part]
        ensures { result.now ≡ self.now }
    {
        self.parts.as_slice()
    }

    /// Whether no device stands in two of the parts. It looks at each part once.
    pub fn has_distinct_devices(&self) -> bool
        ensures { result ≡ distinct (devices_in self.now) }
    {
        let mut seen = [false; MAX_DEVICES];
        for part in self.as_slice() {
            let device = usize::from(part.device.number());
            if seen[device] {
                return false;
            }
            seen[device] = true;
        }
        true
    }

    // Whether one of the parts is for the device.
    pub(crate) fn uses(&self, device: DeviceNo) -> bool
        ensures { result ≡ uses device self.now }
    {
        self.parts
            .as_slice()
            .iter()
            .any(|part| part.device == device)
    }

    // Whether each part has at most 32 bytes.
    fn each_is_fit(&self) -> bool
        ensures { result ≡ list_all is_part self.now }
    {
        self.as_slice().iter().all(|part| part.is_fit())
    }

    /// Whether one of the parts is required.
    pub fn has_required_part(&self) -> bool
        ensures { result ≡ has_required_part self.now }
    {
        self.as_slice().iter().any(|part| part.is_required())
    }

    /// Whether a cue can have these parts: 1 to 16 of distinct devices, each with at most 32 bytes, and one at least
    /// required.
    pub fn is_fit(&self) -> bool
        ensures { result ≡ are_parts self.now }
    {
        if !self.has_required_part() || MAX_PARTS < self.as_slice().len() {
            return false;
        }
        self.has_distinct_devices() && self.each_is_fit()
    }

    /// Puts a part after the others. If memory runs out nothing changes.
    pub fn push(&mut self, part: Part) -> Result<(), AllocError>
        ensures ok { OnOk result (self.new ≡ self.old ++ part ∷ []) }
        ensures err { OnErr result (self.new ≡ self.old) }
    {
        self.parts.push(part)?;
        Ok(())
    }
}

impl PartialEq for Parts {
    ghost eq = { same_parts };

    ghost laws = { partial_equiv_from_equiv same_parts_equiv };

    fn eq(&self, other: &Parts) -> bool {
        self.parts == other.parts
    }
}

impl Eq for Parts {
    ghost laws = { same_parts_equiv };
}

impl Clone for Parts {
    ghost is_clone = { λ parts copy. copy ≡ parts };

    fn clone(&self) -> Result<Parts, AllocError> {
        Ok(Parts {
            parts: self.parts.clone()?,
        })
    }
}
