//! The live attempts of the exchange, which are kept by rising number: how one is found, and the steps that change
//! them.
ghost use Rattle.std.specs.Prelude.{◌≡◌, ◌↔◌, [], IsTrue, IfOk, OnOk, OnErr, is_none, length, nat_lt, slice_get};
ghost use Rattle.std.specs.List.{list_all};
ghost use Rattle.std.specs.Option.{option_copied};
ghost use Rattle.cue_show.specs.Devices.{devices_in};
ghost use Rattle.cue_exchange.specs.declared.attempt.Answer.TheVariants as answer;
ghost use Rattle.cue_exchange.specs.declared.attempt.Stage.TheVariants as stage;
ghost use Rattle.cue_exchange.specs.Live.{are_live, attempt_of, attempt_of_device, attempt_of_cue, due, pairwise};
ghost use Rattle.cue_exchange.specs.Steps.{after_answer, are_below, are_free, are_sound_parts, can_cancel, can_done};
ghost use Rattle.cue_exchange.specs.Steps.{can_excuse, can_fail, can_go, can_let_go, can_put, can_ready, can_start};
ghost use Rattle.cue_exchange.specs.Steps.{ended_in, has_room, is_apart, after_move, after_start, with_attempt};
ghost use Rattle.cue_exchange.specs.Steps.{without_ended};

use crate::attempt::{Answer, Attempt, Outcome, Reason, Stage, is_number};
use crate::holders::{Holders, holders_of, no_holders};
use crate::limits::MAX_LIVE;
use crate::steps;
use cue_show::{CueNo, DeviceNo, Part, Parts};
use std::alloc::{AllocError, Global};
use std::marker::Model;

/// The live attempts, by rising number.
///
/// At most 8 are live at once, and no device is in two of them; a device that has answered stays in its attempt until
/// that ends.
#[derive(Debug, Drop)]
pub struct Live {
    attempts: Vec<Attempt>,
    // Which attempt each device is in; it follows each change of `attempts` that changes their devices.
    holders: Holders,
}

impl Model for Live {
    ghost use Rattle.std.specs.Prelude.{List, IsTrue};
    ghost use Rattle.cue_exchange.specs.declared.attempt.Attempt.{Attempt};

    ghost Value = { List Attempt };

    ghost use Rattle.cue_exchange.specs.Live.{are_live};
    ghost use Rattle.cue_exchange.specs.Holders.{AreHolders};

    ghost view = { λ l. l.attempts.items };

    ghost invariant = { λ l. record {
      live : IsTrue (are_live l.attempts.items);
      holders : AreHolders l.holders l.attempts.items;
    } };
}

impl Live {
    /// No attempt. What is added later takes its memory from this allocator.
    pub fn new(alloc: Global) -> Self
        ensures { result ≡ [] }
    {
        Live {
            attempts: Vec::new(alloc),
            holders: no_holders(),
        }
    }

    /// How many attempts are live.
    pub fn len(&self) -> usize
        ensures value { result ≡ length self.now }
        ensures rules { IsTrue (are_live self.now) }
    {
        self.attempts.len()
    }

    /// Whether no attempt is live.
    pub fn is_empty(&self) -> bool
        ensures { IsTrue result ↔ (self.now ≡ []) }
    {
        self.attempts.is_empty()
    }

    /// The attempts, by rising number.
    pub fn as_slice(&self) -> &[Attempt]
        ensures value { result.now ≡ self.now }
        ensures rules { IsTrue (are_live self.now) }
    {
        &self.attempts
    }

    /// The attempt at the place, counted from 0 by rising number.
    pub fn at(&self, index: usize) -> Option<&Attempt>
        ensures { option_copied result ≡ slice_get self.now index }
    {
        self.attempts.get(index)
    }

    /// The attempt with the number.
    pub fn of_seq(&self, seq: u32) -> Option<&Attempt>
        ensures { option_copied result ≡ attempt_of self.now seq }
    {
        self.attempts.iter().find(|a| a.seq == seq)
    }

    /// The attempt that the device is in; there is at most one.
    pub fn of_device(&self, device: DeviceNo) -> Option<&Attempt>
        ensures { option_copied result ≡ attempt_of_device self.now device }
    {
        // No attempt has the number 0, which stands for none.
        self.of_seq(self.holders[usize::from(device.number())])
    }

    /// The attempt at the cue.
    pub fn of_cue(&self, cue: CueNo) -> Option<&Attempt>
        ensures { option_copied result ≡ attempt_of_cue self.now cue }
    {
        self.attempts.iter().find(|a| a.cue == cue)
    }

    /// The numbers of the Preparing attempts whose deadline, in milliseconds since 1970, is at or before `now`, rising.
    pub fn due(&self, now: u64) -> Result<Vec<u32>, AllocError>
        ensures value { IfOk result (λ seqs. seqs.items ≡ due now self.now) }
        ensures rising { IfOk result (λ seqs. IsTrue (pairwise nat_lt seqs.items)) }
    {
        steps::due(&self.attempts, now)
    }

    /// Equal attempts, on the same allocator.
    pub fn try_clone(&self) -> Result<Live, AllocError>
        ensures { IfOk result (λ copy. copy ≡ self.now) }
    {
        Ok(Live {
            attempts: self.attempts.clone()?,
            holders: self.holders,
        })
    }

    // Whether the device is in no live attempt.
    pub(crate) fn is_free(&self, device: DeviceNo) -> bool
        ensures { result ≡ is_none (attempt_of_device self.now device) }
    {
        self.of_device(device).is_none()
    }

    /// Whether none of the devices of the parts is in a live attempt.
    pub fn are_free(&self, parts: &Parts) -> bool
        ensures { result ≡ are_free (devices_in parts.now) self.now }
    {
        self.all_free(parts.as_slice())
    }

    fn all_free(&self, parts: &[Part]) -> bool
        ensures { result ≡ list_all (λ p. is_none (attempt_of_device self.now p.device)) parts.now }
    {
        parts.iter().all(|part| self.is_free(part.device))
    }

    /// Whether one more attempt may be live.
    pub fn has_room(&self) -> bool
        ensures { result ≡ has_room self.now }
    {
        self.len() < MAX_LIVE
    }

    // Whether the number is above those of the live attempts.
    fn are_below(&self, seq: u32) -> bool
        ensures { result ≡ are_below seq self.now }
    {
        self.attempts.iter().all(|a| a.seq < seq)
    }

    /// Whether an attempt with the number and the deadline, in milliseconds since 1970, may begin with the devices of
    /// the parts.
    pub fn can_start(&self, seq: u32, deadline: u64, parts: &Parts) -> bool
        ensures { result ≡ can_start seq deadline parts.now self.now }
    {
        // Read so that its range is known: the definition asks for a time of 64 bits.
        let _moment = deadline;
        if !is_number(seq) || !self.has_room() {
            return false;
        }
        self.are_below(seq) && self.are_free(parts) && are_sound(parts)
    }

    /// Whether the attempt is Preparing and the device is still to answer in it.
    pub fn can_ready(&self, seq: u32, device: DeviceNo) -> bool
        ensures { result ≡ can_ready seq device self.now }
    {
        self.attempts.iter().any(|a| a.seq == seq
            && a.stage.is_preparing()
            && a.answers.waits_for(device))
    }

    /// Whether the attempt is Preparing and the device is an optional one of it that waits or stands by.
    pub fn can_excuse(&self, seq: u32, device: DeviceNo) -> bool
        ensures { result ≡ can_excuse seq device self.now }
    {
        self.attempts
            .iter()
            .any(|a| a.seq == seq && a.can_excuse(device))
    }

    /// Whether the attempt is Preparing and, as far as each of its devices goes, the cue may be carried out.
    pub fn can_go(&self, seq: u32) -> bool
        ensures { result ≡ can_go seq self.now }
    {
        self.attempts.iter().any(|a| a.seq == seq && a.can_go())
    }

    /// Whether the attempt is Preparing.
    pub fn can_cancel(&self, seq: u32) -> bool
        ensures { result ≡ can_cancel seq self.now }
    {
        self.attempts
            .iter()
            .any(|a| a.seq == seq && a.stage.is_preparing())
    }

    /// Whether the attempt is Decided and the device is still to answer in it.
    pub fn can_done(&self, seq: u32, device: DeviceNo) -> bool
        ensures { result ≡ can_done seq device self.now }
    {
        self.attempts.iter().any(|a| a.seq == seq
            && a.stage.is_decided()
            && a.answers.waits_for(device))
    }

    /// Whether the attempt is Cancelling and the device is still to answer in it.
    pub fn can_let_go(&self, seq: u32, device: DeviceNo) -> bool
        ensures { result ≡ can_let_go seq device self.now }
    {
        self.attempts.iter().any(|a| a.seq == seq
            && a.stage.is_cancelling()
            && a.answers.waits_for(device))
    }

    /// Whether the attempt is Decided or Cancelling and the device is still to answer in it.
    pub fn can_fail(&self, seq: u32, device: DeviceNo) -> bool
        ensures { result ≡ can_fail seq device self.now }
    {
        self.attempts.iter().any(|a| a.seq == seq
            && a.stage.is_concluding()
            && a.answers.waits_for(device))
    }

    /// Whether the attempt may be put among the others: there is room, it keeps the rules of a live one, and its
    /// number and its devices are in no other.
    pub fn can_put(&self, attempt: &Attempt) -> bool
        ensures { result ≡ can_put attempt.now self.now }
    {
        self.has_room() && attempt.keeps_rules() && self.are_apart(attempt)
    }

    fn are_apart(&self, attempt: &Attempt) -> bool
        ensures { result ≡ list_all (is_apart attempt.now) self.now }
    {
        self.attempts.iter().all(|a| attempt.is_apart(a))
    }

    /// Puts an attempt that was read from a stored state at its place by number. Asked first: `can_put`. If memory
    /// runs out nothing changes.
    pub fn put(&mut self, attempt: Attempt) -> Result<(), AllocError>
        requires { IsTrue (can_put attempt self.old) }
        ensures ok { OnOk result (self.new ≡ with_attempt attempt self.old) }
        ensures err { OnErr result (self.new ≡ self.old) }
    {
        let place = steps::place_of(&self.attempts, attempt.seq);
        self.attempts.insert(place, attempt)?;
        self.holders = holders_of(&self.attempts);
        Ok(())
    }

    /// Begins an attempt at the cue: it is Preparing, and each device of the parts is asked to stand by. The deadline
    /// is in milliseconds since 1970. If memory runs out nothing changes.
    pub fn start(
        &mut self,
        seq: u32,
        cue: CueNo,
        deadline: u64,
        parts: &Parts,
    ) -> Result<(), AllocError>
        requires { IsTrue (can_start seq deadline parts.now self.old) }
        ensures ok { OnOk result (self.new ≡ after_start seq cue deadline parts.now self.old) }
        ensures err { OnErr result (self.new ≡ self.old) }
    {
        let answers = steps::first_answers(*self.attempts.allocator(), parts)?;
        self.attempts.push(Attempt {
            seq,
            cue,
            deadline,
            stage: Stage::Preparing,
            answers,
        })?;
        self.holders = holders_of(&self.attempts);
        Ok(())
    }

    /// The device stands by. Asked first: `can_ready`.
    pub fn ready(&mut self, seq: u32, device: DeviceNo)
        requires { IsTrue (can_ready seq device self.old) }
        ensures { self.new ≡ after_answer seq device answer.Ready self.old }
    {
        steps::put_answer(&mut self.attempts, seq, device, Answer::Ready);
    }

    /// The optional device is excused: the cue may go without it, and it is asked nothing more. Asked first:
    /// `can_excuse`.
    pub fn excuse(&mut self, seq: u32, device: DeviceNo)
        requires { IsTrue (can_excuse seq device self.old) }
        ensures { self.new ≡ after_answer seq device answer.Excused self.old }
    {
        steps::put_answer(&mut self.attempts, seq, device, Answer::Excused);
    }

    /// The cue is carried out: each device that was not excused is asked to do its part. Asked first: `can_go`.
    pub fn go(&mut self, seq: u32)
        requires { IsTrue (can_go seq self.old) }
        ensures { self.new ≡ after_move seq stage.Decided self.old }
    {
        steps::move_to(&mut self.attempts, seq, Stage::Decided);
    }

    /// The preparation is given up: each device that was not excused is ordered to do so. Asked first: `can_cancel`.
    pub fn cancel(&mut self, seq: u32, reason: Reason)
        requires { IsTrue (can_cancel seq self.old) }
        ensures { self.new ≡ after_move seq (stage.Cancelling reason) self.old }
    {
        steps::move_to(&mut self.attempts, seq, Stage::Cancelling(reason));
    }

    /// The device has carried the cue out. If it was the last to answer, the attempt ends, and the result is how
    /// it ended. Asked first: `can_done`.
    pub fn done(&mut self, seq: u32, device: DeviceNo) -> Option<Outcome>
        requires { IsTrue (can_done seq device self.old) }
        ensures live { self.new ≡ without_ended seq (after_answer seq device answer.Done self.old) }
        ensures outcome { result ≡ ended_in seq (after_answer seq device answer.Done self.old) }
    {
        let outcome = steps::settle(&mut self.attempts, seq, device, Answer::Done);
        self.holders = holders_of(&self.attempts);
        outcome
    }

    /// The device has given the preparation up. If it was the last to answer, the attempt ends, and the result is
    /// how it ended. Asked first: `can_let_go`.
    pub fn let_go(&mut self, seq: u32, device: DeviceNo) -> Option<Outcome>
        requires { IsTrue (can_let_go seq device self.old) }
        ensures live { self.new ≡ without_ended seq (after_answer seq device answer.LetGo self.old) }
        ensures outcome { result ≡ ended_in seq (after_answer seq device answer.LetGo self.old) }
    {
        let outcome = steps::settle(&mut self.attempts, seq, device, Answer::LetGo);
        self.holders = holders_of(&self.attempts);
        outcome
    }

    /// The device cannot go on. If it was the last to answer, the attempt ends, and the result is how it ended.
    /// Asked first: `can_fail`.
    pub fn failed(&mut self, seq: u32, device: DeviceNo) -> Option<Outcome>
        requires { IsTrue (can_fail seq device self.old) }
        ensures live { self.new ≡ without_ended seq (after_answer seq device answer.Failed self.old) }
        ensures outcome { result ≡ ended_in seq (after_answer seq device answer.Failed self.old) }
    {
        let outcome = steps::settle(&mut self.attempts, seq, device, Answer::Failed);
        self.holders = holders_of(&self.attempts);
        outcome
    }
}

// Whether an attempt may have the devices of the parts: some part is required, and no device is there twice.
fn are_sound(parts: &Parts) -> bool
    ensures { result ≡ are_sound_parts parts.now }
{
    parts.has_required_part() && parts.has_distinct_devices()
}
