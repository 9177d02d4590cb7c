//! The answers of an attempt: its devices in part order, each with what it has answered.
ghost use Rattle.std.specs.Prelude.{◌≡◌, not};
ghost use Rattle.std.specs.List.{list_all};
ghost use Rattle.std.specs.Option.{option_copied};
ghost use Rattle.cue_show.specs.Devices.{distinct, disjoint};
ghost use Rattle.cue_exchange.specs.Live.{have_sound_devices};
ghost use Rattle.cue_exchange.specs.Answers.{is_waiting, device_answer, answer_passes, is_one_of, has_required};
ghost use Rattle.cue_exchange.specs.Answers.{is_excusable, some_waits, all_may_go, all_have_done, with_answer};
ghost use Rattle.cue_exchange.specs.Answers.{answers_with, devices_of, may_be_in, answers_on_entry, enters};

use crate::attempt::{Answer, DeviceAnswer, Stage};
use cue_show::DeviceNo;
use std::alloc::AllocError;
use std::marker::Model;

/// The devices of an attempt in part order, each with its answer.
#[derive(Debug, Drop)]
pub struct Answers {
    items: Vec<DeviceAnswer>,
}

impl Model for Answers {
    ghost use Rattle.std.specs.Prelude.{List};
    ghost use Rattle.cue_exchange.specs.declared.attempt.DeviceAnswer.{DeviceAnswer};

    ghost Value = { List DeviceAnswer };

    ghost view = { λ a. a.items.items };
}

impl Answers {
    /// The answers, kept in the memory that they have.
    pub fn of(items: Vec<DeviceAnswer>) -> Self
        ensures { result ≡ items.items }
    {
        Answers { items }
    }

    /// Gives the memory of the answers back.
    pub fn into_vec(self) -> Vec<DeviceAnswer>
        ensures { result.items ≡ self }
    {
        let Answers { items } = self;
        items
    }

    /// The answers.
    pub fn as_slice(&self) -> &[DeviceAnswer]
        ensures { result.now ≡ self.now }
    {
        &self.items
    }

    /// The device with its answer; none if it is not one of the attempt.
    pub fn device_answer(&self, device: DeviceNo) -> Option<&DeviceAnswer>
        ensures { option_copied result ≡ device_answer self.now device }
    {
        self.items.iter().find(|x| x.device == device)
    }

    // Whether the device is one of the attempt.
    pub(crate) fn has_device(&self, device: DeviceNo) -> bool
        ensures { result ≡ is_one_of device self.now }
    {
        self.items.iter().any(|x| x.device == device)
    }

    // Whether some device is required, and none is there twice.
    pub(crate) fn has_sound_devices(&self) -> bool
        ensures { result ≡ have_sound_devices self.now }
    {
        self.has_required() && are_distinct(&self.items)
    }

    // Whether some device is required.
    fn has_required(&self) -> bool
        ensures { result ≡ has_required self.now }
    {
        self.items.iter().any(|x| x.is_required())
    }

    // Whether no device is one of both attempts.
    pub(crate) fn is_disjoint(&self, other: &Answers) -> bool
        ensures { result ≡ disjoint (devices_of self.now) (devices_of other.now) }
    {
        are_outside(&self.items, other)
    }

    // Whether each answer may stand in the stage.
    pub(crate) fn all_stand(&self, stage: Stage) -> bool
        ensures { result ≡ list_all (may_be_in stage) self.now }
    {
        self.items.iter().all(|x| x.may_be_in(stage))
    }

    /// Whether the device is one of the attempt and is still to answer.
    pub fn waits_for(&self, device: DeviceNo) -> bool
        ensures { result ≡ answer_passes is_waiting device self.now }
    {
        self.items
            .iter()
            .any(|x| x.device == device && x.answer.is_waiting())
    }

    // Whether the device is an optional one of the attempt that waits or stands by.
    pub(crate) fn can_excuse(&self, device: DeviceNo) -> bool
        ensures { result ≡ is_excusable device self.now }
    {
        self.items
            .iter()
            .any(|x| x.device == device && x.can_be_excused())
    }

    // Whether some device is still to answer.
    pub(crate) fn some_waits(&self) -> bool
        ensures { result ≡ some_waits self.now }
    {
        self.items.iter().any(|x| x.answer.is_waiting())
    }

    // Whether, as far as the devices go, the cue may be carried out.
    pub(crate) fn all_may_go(&self) -> bool
        ensures { result ≡ all_may_go self.now }
    {
        self.items.iter().all(|x| x.may_go())
    }

    // Whether each device has carried the cue out, or was excused.
    pub(crate) fn all_have_done(&self) -> bool
        ensures { result ≡ all_have_done self.now }
    {
        self.items.iter().all(|x| x.has_done())
    }

    // The device has answered.
    pub(crate) fn put(&mut self, device: DeviceNo, answer: Answer)
        ensures { self.new ≡ with_answer device answer self.old }
    {
        put_answer(&mut self.items, device, answer);
    }

    // The attempt enters the stage.
    pub(crate) fn enter(&mut self, stage: Stage)
        ensures { self.new ≡ answers_on_entry stage self.old }
    {
        enter_stage(&mut self.items, stage);
    }
}

impl Clone for Answers {
    ghost is_clone = { λ answers copy. copy ≡ answers };

    fn clone(&self) -> Result<Answers, AllocError> {
        Ok(Answers {
            items: self.items.clone()?,
        })
    }
}

// Whether the device is one of those.
fn is_one_of(device: DeviceNo, items: &[DeviceAnswer]) -> bool
    ensures { result ≡ is_one_of device items.now }
{
    items.iter().any(|x| x.device == device)
}

// Whether none of the devices is one of the attempt.
fn are_outside(items: &[DeviceAnswer], other: &Answers) -> bool
    ensures { result ≡ list_all (λ x. not (is_one_of x.device other.now)) items.now }
{
    items.iter().all(|x| !other.has_device(x.device))
}

// Whether no device stands twice.
fn are_distinct(items: &[DeviceAnswer]) -> bool
    ensures { result ≡ distinct (devices_of items.now) }
{
    match items {
        [] => true,
        [first, rest @ ..] => { !is_one_of(first.device, rest) && are_distinct(rest) }
    }
}

// The device has answered, and each other one stays as it is.
fn put_answer(items: &mut Vec<DeviceAnswer>, device: DeviceNo, answer: Answer)
    ensures { items.new.items ≡ with_answer device answer items.old.items }
{
    for item in items.iter_mut() {
        answer_for(item, device, answer);
    }
}

fn answer_for(item: &mut DeviceAnswer, device: DeviceNo, answer: Answer)
    ensures { item.new ≡ answers_with device answer item.old }
{
    if item.device == device {
        item.answer = answer;
    }
}

// Each device, as its attempt enters the stage.
fn enter_stage(items: &mut Vec<DeviceAnswer>, stage: Stage)
    ensures { items.new.items ≡ answers_on_entry stage items.old.items }
{
    for item in items.iter_mut() {
        enter(item, stage);
    }
}

fn enter(item: &mut DeviceAnswer, stage: Stage)
    ensures { item.new ≡ enters stage item.old }
{
    item.answer = item.answer.entering(stage);
}
