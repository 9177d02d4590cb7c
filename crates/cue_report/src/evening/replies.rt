//! Follows the replies: what was asked of cues and devices, by whom, and what was refused.
ghost use Rattle.std.specs.Prelude.{◌≡◌, OnOk};
ghost use Rattle.cue_report.specs.Evening as evening;
ghost use Rattle.cue_report.specs.Following as spec;
ghost use Rattle.cue_report.specs.Picture.{picture};

use super::asking::{Made, device_at, name_at, verb_at};
use super::{Evening, Refusal};
use crate::attempt::Who;
use crate::sentences::{counted_words, refused_words};
use cue_log_lines::{Asked, Count, Refused};
use std::alloc::AllocError;

// For how many replies a line stands.
fn times_of(count: Option<Count>) -> u64
    ensures { result ≡ spec.times_of count }
{
    match count {
        Some(count) => count.times,
        None => 1,
    }
}

impl Evening {
    // A reply that made or refused something.
    pub(super) fn reply(
        &mut self,
        at: u64,
        reply: &Asked<'_>,
        count: Option<Count>,
    ) -> Result<(), AllocError>
        ensures { picture self.new.attempts ≡ picture self.old.attempts }
    {
        if let Some(name) = name_at(reply.address.bytes()) {
            return self.asking.name(reply.port, at, name);
        }
        let device = device_at(reply.address.bytes());
        let by = self.asking.who(device, reply.port, at);
        if let Refused::Some { code, .. } = reply.refused {
            self.refuse_reply(at, &by, reply, code, count)?;
        }
        match verb_at(reply.address.bytes()) {
            Some((verb, cue)) if reply.made > 0 => self.asking.made(&Made { at, by, verb, cue }),
            _ => Ok(()),
        }
    }

    // Keeps a refusal that stands for so many.
    fn refuse(&mut self, times: u64, at: u64, by: &Who, said: String) -> Result<(), AllocError>
        ensures counted { self.new.refused ≡ evening.more_by times self.old.refused }
        ensures kept { OnOk result (self.new.refusals.items.items ≡
            evening.kept_with self.old.refusals.items.items (record { at = at; by = by.now; said = said })) }
        ensures attempts { picture self.new.attempts ≡ picture self.old.attempts }
    {
        self.refused = self.refused.saturating_add(times);
        self.refusals.push(Refusal { at, by: *by, said })
    }

    // A command was refused.
    fn refuse_reply(
        &mut self,
        at: u64,
        by: &Who,
        reply: &Asked<'_>,
        code: u16,
        count: Option<Count>,
    ) -> Result<(), AllocError>
        ensures counted { OnOk result (self.new.refused ≡ evening.more_by (spec.times_of count) self.old.refused) }
        ensures attempts { picture self.new.attempts ≡ picture self.old.attempts }
    {
        let said = refused_words(self.alloc, reply, code, count)?;
        self.refuse(times_of(count), at, by, said)
    }

    // Refusals of several kinds were counted.
    pub(super) fn count(&mut self, at: u64, count: Count) -> Result<(), AllocError>
        ensures counted { OnOk result (self.new.refused ≡ evening.more_by count.times self.old.refused) }
        ensures attempts { picture self.new.attempts ≡ picture self.old.attempts }
    {
        let said = counted_words(self.alloc, "of several kinds", count)?;
        self.refuse(count.times, at, &Who::Unseen, said)
    }
}
