//! The datagrams that are owed, in the order in which they are to be sent.
ghost use Rattle.std.specs.Prelude.{◌≡◌, ◌↔◌, [], ◌++◌, length, take, IsTrue, IfNone, OnOk, OnErr};
ghost use Rattle.std.specs.Option.{option_to_list};
ghost use Rattle.cue_outbox.specs.Views.{outs_view};

use crate::out::Out;
use std::alloc::{AllocError, Global};
use std::collections::VecDeque;
use std::marker::Model;

/// Datagrams in order: new ones go to the back, and the first is taken from the front.
#[derive(Drop)]
pub struct Queue {
    outs: VecDeque<Out>,
}

impl Model for Queue {
    ghost use Rattle.std.specs.Prelude.{ℕ, List};
    ghost use Rattle.cue_outbox.specs.Views.{outs_view};

    ghost Value = { List (ℕ × List ℕ) };

    ghost view = { λ q. outs_view q.outs.items };
}

impl Queue {
    /// No datagram. What is pushed later takes its memory from this allocator.
    pub fn new(alloc: Global) -> Queue
        ensures { result ≡ [] }
    {
        Queue {
            outs: VecDeque::new(alloc),
        }
    }

    /// Puts the datagrams after the others, in order; their bytes stay where they are. Where memory runs out nothing
    /// changes, and they are dropped.
    pub fn push_all(&mut self, outs: Vec<Out>) -> Result<(), AllocError>
        ensures ok { OnOk result (self.new ≡ self.old ++ outs_view outs.items) }
        ensures err { OnErr result (self.new ≡ self.old) }
    {
        let mut outs = VecDeque::from_vec(outs);
        self.outs.append(&mut outs)
    }

    /// Takes the first datagram out, if there is one.
    pub fn take_first(&mut self) -> Option<Out>
        ensures taken { self.old ≡ outs_view (option_to_list result) ++ self.new }
        ensures none { IfNone result (self.old ≡ []) }
    {
        self.outs.pop_front()
    }

    /// Keeps the first `count` datagrams, and drops the others.
    #[tactic(auto, using(crate::proofs::FrontLemmas::view_of_front))]
    pub fn truncate(&mut self, count: usize)
        ensures { self.new ≡ take count self.old }
    {
        self.outs.truncate(count);
    }

    /// How many datagrams there are.
    pub fn len(&self) -> usize
        ensures { result ≡ length self.now }
    {
        self.outs.len()
    }

    /// Whether there is none.
    pub fn is_empty(&self) -> bool
        ensures { IsTrue result ↔ (self.now ≡ []) }
    {
        self.outs.is_empty()
    }
}
