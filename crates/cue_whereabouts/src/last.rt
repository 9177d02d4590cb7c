//! The last part of a device that has ended.
ghost use Rattle.std.specs.Prelude.{◌≡◌};
ghost use Rattle.cue_show.specs.Number.{same_text};
ghost use Rattle.cue_whereabouts.specs.Differing.{is_carried_out};
ghost use Rattle.cue_whereabouts.specs.Telling.{kept_bytes};

use cue_show::limits::MAX_PART_BYTES;
use cue_show::{CueNo, ShortBytes};
use std::marker::Model;

/// The bytes of a part, kept in place.
#[derive(Clone, Copy)]
pub struct PartBytes {
    bytes: ShortBytes<MAX_PART_BYTES>,
}

impl Model for PartBytes {
    ghost use Rattle.std.specs.Prelude.{ℕ, List};

    ghost Value = { List ℕ };

    ghost view = { λ p. p.bytes };

    ghost inverse = { λ bytes. record { bytes = bytes } };
}

impl PartBytes {
    /// The bytes, if they are no more than a part may have.
    pub fn read(bytes: &[u8]) -> Option<PartBytes>
        ensures { result ≡ kept_bytes bytes.now }
    {
        match ShortBytes::read(bytes) {
            Some(bytes) => Some(PartBytes { bytes }),
            None => None,
        }
    }

    /// The bytes.
    pub fn as_slice(&self) -> &[u8]
        ensures { result.now ≡ self.now }
    {
        self.bytes.as_slice()
    }

    /// Whether they are the same.
    pub fn is_same(&self, other: &PartBytes) -> bool
        ensures { result ≡ same_text self.now other.now }
    {
        self.bytes == other.bytes
    }
}

/// How a part ended that a device was ordered to carry out.
#[derive(Clone, Copy, PartialEq, Eq, Debug)]
pub enum End {
    /// The device says that it has carried it out.
    CarriedOut,
    /// The device failed, or was released: nobody knows where it stands.
    Failed,
}

impl End {
    /// Whether the device says that it has carried it out.
    pub fn is_carried_out(self) -> bool
        ensures { result ≡ is_carried_out self }
    {
        match self {
            End::CarriedOut => true,
            End::Failed => false,
        }
    }
}

/// The last part of a device that has ended.
///
/// Contracts see it as `PartEnd` of `specs/Ending.antt`.
#[derive(Drop)]
pub struct LastPart {
    attempt: u32,
    end: End,
    cue: Option<CueNo>,
    bytes: Option<PartBytes>,
}

impl Model for LastPart {
    ghost use Rattle.cue_whereabouts.specs.Ending.{PartEnd};

    ghost Value = { PartEnd };

    ghost view = { λ l. record { attempt = l.attempt; end = l.end; cue = l.cue; bytes = l.bytes } };
}

impl LastPart {
    /// The part that ended so in this attempt, at a cue and with bytes that may not be known.
    pub fn of(attempt: u32, end: End, cue: Option<CueNo>, bytes: Option<PartBytes>) -> LastPart
        ensures { result ≡ record { attempt = attempt; end = end; cue = cue; bytes = bytes } }
    {
        LastPart {
            attempt,
            end,
            cue,
            bytes,
        }
    }

    /// The same once more.
    pub fn copied(&self) -> LastPart
        ensures { result ≡ self.now }
    {
        LastPart::of(self.attempt, self.end, self.cue, self.bytes)
    }

    /// The number of its attempt.
    pub fn attempt(&self) -> u32
        ensures { result ≡ self.now.attempt }
    {
        self.attempt
    }

    /// How it ended.
    pub fn end(&self) -> End
        ensures { result ≡ self.now.end }
    {
        self.end
    }

    /// Its cue; none if nothing tells of the start of the attempt any more.
    pub fn cue(&self) -> Option<CueNo>
        ensures { result ≡ self.now.cue }
    {
        self.cue
    }

    /// What the device did; none if its cue is not known, or had no part for it any more when this was heard.
    pub fn bytes(&self) -> Option<PartBytes>
        ensures { result ≡ self.now.bytes }
    {
        self.bytes
    }
}
