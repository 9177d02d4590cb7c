//! A load that puts a show file in the place of what a store has: the plan, as a machine.
ghost use Rattle.std.specs.Prelude.{◌≡◌, IfOk, IfSome, IsErrOf, IsTrue, OnOk, is_some, true, false};
ghost use Rattle.cue_desk.specs.declared.asking.AskFault.TheVariants.{Unwritable};
ghost use Rattle.cue_loading.specs.Loaded.{is_loaded};
ghost use Rattle.cue_loading.specs.Steps.{goes_on};
ghost use Rattle.cue_load_machine.specs.Addings.{AnyOf};
ghost use Rattle.cue_load_machine.specs.Plans.{IsMachineOf, IsPlanned, IsUnaskablePlan, PushesAsks, copy_for, is_exact};
ghost use Rattle.cue_load_machine.specs.Plans.{is_open, removes_some, rests, subject_at};
ghost use Rattle.cue_load_machine.specs.Letters.{IsUnaskableStep, removes, subject_of};

use crate::asks::{Ask, push_ask};
use crate::letters::ask_of_step;
use crate::machine::LoadMachine;
use cue_desk::asking::AskFault;
use cue_loading::{Manner, Step, plan};
use cue_show::Show;
use cue_show_file::Subject;
use std::alloc::Global;

/// A plan, and the machine that carries it out.
#[derive(Drop)]
pub struct Planned {
    pub steps: Vec<Step>,
    pub machine: LoadMachine,
}

/// What the store had, as a text, and whether it is to be kept though nothing is removed.
#[derive(Drop)]
pub struct Copied {
    pub text: Vec<u8>,
    pub is_wanted: bool,
}

/// Whether nothing of the show is live, if so many attempts are.
pub fn rests(live: i32) -> bool
    ensures { result ≡ rests live }
{
    live == 0
}

/// Whether a step takes something away.
pub fn removes(step: &Step) -> bool
    ensures { result ≡ removes step.now }
{
    match step {
        Step::AddDevice(_, _) => false,
        Step::RemoveDevice(_) => true,
        Step::AddCue(_, _) => false,
        Step::RemoveCue(_) => true,
        Step::MovePlace(_) => false,
    }
}

// Whether one of these does.
fn removes_some(steps: &[Step]) -> bool
    ensures { result ≡ removes_some steps.now }
{
    match steps {
        [] => false,
        [first, rest @ ..] => removes(first) || removes_some(rest),
    }
}

// What a step is about.
fn subject_of(step: &Step) -> Subject
    ensures { result ≡ subject_of step.now }
{
    match step {
        Step::AddDevice(device, _) => Subject::Device(*device),
        Step::RemoveDevice(device) => Subject::Device(*device),
        Step::AddCue(cue, _) => Subject::Cue(*cue),
        Step::RemoveCue(cue) => Subject::Cue(*cue),
        Step::MovePlace(cue) => Subject::Cue(*cue),
    }
}

impl Planned {
    /// What the step is about whose turn it is, or at which the load ended; none if all are done.
    pub fn subject(&self) -> Option<Subject>
        ensures { result ≡ subject_at self.now }
    {
        let place = self.machine.stage().place(self.steps.len());
        match self.steps.get(place) {
            Some(step) => Some(subject_of(step)),
            None => None,
        }
    }

    /// Whether something that was asked may have been taken away.
    pub fn is_open(&self) -> bool
        ensures { result ≡ is_open self.now }
    {
        let asked = self
            .machine
            .stage()
            .asked(self.steps.len())
            .min(self.steps.len());
        removes_some(&self.steps[..asked])
    }
}

// The copy that these steps want: nothing is taken away without one.
fn copy_for(copied: Copied, steps: &[Step]) -> Option<Vec<u8>>
    ensures { result ≡ copy_for copied.is_wanted copied.text steps.now }
{
    if copied.is_wanted || removes_some(steps) {
        Some(copied.text)
    } else {
        None
    }
}

// Puts what asks each of these steps after the others.
#[tactic(auto, using(crate::proofs::PlanLemmas::pushed_none, crate::proofs::PlanLemmas::pushed_more))]
fn push_asks(alloc: Global, asks: &mut Vec<Ask>, steps: &[Step]) -> Result<(), AskFault>
    ensures pushes { OnOk result (PushesAsks asks.old.items steps.now asks.new.items) }
    ensures unwritable { IsErrOf result Unwritable → AnyOf IsUnaskableStep steps.now }
{
    match steps {
        [] => Ok(()),
        [first, rest @ ..] => {
            push_ask(asks, ask_of_step(alloc, first)?)?;
            push_asks(alloc, asks, rest)
        }
    }
}

/// Whether what the file does not have is removed, too.
pub fn is_exact(manner: Manner) -> bool
    ensures { result ≡ is_exact manner }
{
    match manner {
        Manner::Adds => false,
        Manner::Replaces => false,
        Manner::IsExact => true,
    }
}

// The machine of these steps.
#[tactic(auto, using(crate::proofs::PlanLemmas::is_machine_of))]
fn machine_of(
    alloc: Global,
    port: u16,
    manner: Manner,
    copied: Copied,
    steps: &[Step],
) -> Result<LoadMachine, AskFault>
    ensures machine { IfOk result (λ m. IsMachineOf port manner copied steps.now m) }
    ensures unwritable { IsErrOf result Unwritable → AnyOf IsUnaskableStep steps.now }
{
    let mut asks = Vec::new(alloc);
    push_asks(alloc, &mut asks, steps)?;
    let copy = copy_for(copied, steps);
    Ok(LoadMachine::of(alloc, port, manner, copy, asks)?)
}

/// The plan that puts the file in the place of what differs from it in a store, with the machine that carries it out
/// once the copy is written, for a load that may take something away; none if the stack has no room. `Unwritable` if one
/// of its steps cannot be asked. It is called only while nothing is live: so many attempts were when the store was read.
pub fn plan_load(
    alloc: Global,
    port: u16,
    manner: Manner,
    file: &Show,
    stored: &Show,
    live: i32,
    copied: Copied,
) -> Result<Option<Planned>, AskFault>
    requires at_rest { rests live ≡ true }
    requires takes { goes_on manner false ≡ false }
    ensures planned { IfOk result (λ some. IfSome some (λ p.
        IsPlanned port manner file.now stored.now copied p)) }
    ensures loaded { IsTrue (is_loaded (is_exact manner) file.now stored.now stored.now)
        → IfOk result (λ some. IsTrue (is_some some)) }
    ensures unwritable { IsErrOf result Unwritable → IsUnaskablePlan manner file.now stored.now }
{
    match plan(alloc, is_exact(manner), file, stored)? {
        Some(steps) => {
            let machine = machine_of(alloc, port, manner, copied, &steps)?;
            Ok(Some(Planned { steps, machine }))
        }
        None => Ok(None),
    }
}
