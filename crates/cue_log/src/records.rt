// The records of an area, as they stand after its snapshot: nothing is built of them until they are asked for.
ghost use Rattle.std.specs.Prelude.{◌≡◌, ◌<◌, ◌^◌, ◌∷◌, [], length, IfOk, MatchOption};
ghost use Rattle.cue_log.specs.Reading.{payloads_in, HasRecords};

use crate::area::{MAX_PAYLOAD, OPEN};
use crate::reading::frame;
use std::alloc::{AllocError, Global};
use std::marker::Model;

/// Records in the order in which they were appended. Contracts see the list of their payloads.
#[derive(Debug, Drop)]
pub struct Records {
    // from the first gate on
    text: Vec<u8>,
}

impl Model for Records {
    ghost use Rattle.std.specs.Prelude.{List, ℕ};
    ghost use Rattle.cue_log.specs.Reading.{payloads_in, HasRecords};

    ghost Value = { List (List ℕ) };

    ghost view = { λ records. payloads_in records.text.items };

    ghost invariant = { λ records. HasRecords records.text.items };
}

impl Records {
    /// The records that stand here, up to the last gate. It takes memory once.
    pub(crate) fn of(alloc: Global, text: &[u8]) -> Result<Records, AllocError>
        requires { HasRecords text.now }
        ensures { IfOk result (λ records. records ≡ payloads_in text.now) }
    {
        let text = text.to_vec(alloc)?;
        Ok(Records { text })
    }

    /// The payloads, one after the other. It takes no memory.
    #[tactic(auto, using(crate::proofs::RecordsReadLemmas::few_in))]
    pub fn payloads(&self) -> Payloads<'_>
        ensures all { result ≡ self.now }
        ensures few { length self.now < 2 ^ 64 }
    {
        Payloads { rest: &self.text }
    }

    /// How many records there are.
    pub fn count(&self) -> u64
        ensures { result ≡ length self.now }
    {
        let mut count = 0;
        let mut rest = self.payloads();
        while let Some(_) = rest.next() {
            count += 1;
        }
        count
    }
}

/// Payloads that are still to come. Contracts see the list of them.
#[derive(Debug, Drop)]
pub struct Payloads<'a> {
    // from a gate on
    rest: &'a [u8],
}

impl<'a> Model for Payloads<'a> {
    ghost use Rattle.std.specs.Prelude.{List, ℕ};
    ghost use Rattle.cue_log.specs.Reading.{payloads_in, HasRecords};

    ghost Value = { List (List ℕ) };

    ghost view = { λ payloads. payloads_in payloads.rest.now };

    ghost invariant = { λ payloads. HasRecords payloads.rest.now };
}

impl<'a> Payloads<'a> {
    /// The next payload; none at the end, however often it is asked for.
    pub fn next(&mut self) -> Option<&'a [u8]>
        ensures { MatchOption result ((self.old ≡ []) × (self.new ≡ []))
            (λ payload. self.old ≡ payload.now ∷ self.new) }
    {
        let (gate, after) = self.rest.split_first()?;
        if *gate != OPEN {
            return None;
        }
        let (payload, rest) = frame(after, MAX_PAYLOAD)?;
        self.rest = rest;
        Some(payload)
    }
}
