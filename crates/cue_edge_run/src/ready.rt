//! Which sockets have something to read: each in its turn, so that a flooded one does not keep the others waiting.
ghost use Rattle.std.specs.Prelude.{◌≡◌, ◌++◌, [], IfOk, OnOk, option_to_list};
ghost use Rattle.cue_edge_run.specs.Turns.{IsQueued};

use std::alloc::{AllocError, Global};
use std::collections::VecDeque;

/// The sockets that may have something to read, by their places.
#[derive(Drop)]
pub struct Ready {
    queue: VecDeque<usize>,
    // Which of them stand in the queue.
    waits: Vec<bool>,
}

impl Ready {
    /// None of so many sockets.
    pub fn new(alloc: Global, count: usize) -> Result<Ready, AllocError>
        ensures { IfOk result (λ ready. ready.queue.items ≡ []) }
    {
        Ok(Ready {
            queue: VecDeque::with_capacity(alloc, count)?,
            waits: vec![in alloc; false; count]?,
        })
    }

    /// Whether none waits.
    pub fn is_empty(&self) -> bool {
        self.queue.is_empty()
    }

    /// The socket has something to read: it is the last in turn, if it does not wait already.
    pub fn add(&mut self, place: usize) -> Result<(), AllocError>
        ensures { OnOk result (IsQueued self.old.queue.items place self.new.queue.items) }
    {
        if place >= self.waits.len() || self.waits[place] {
            return Ok(());
        }
        self.queue.push_back(place)?;
        self.waits[place] = true;
        Ok(())
    }

    /// The next in turn. It waits no more.
    pub fn next(&mut self) -> Option<usize>
        ensures { self.old.queue.items ≡ option_to_list result ++ self.new.queue.items }
    {
        let place = self.queue.pop_front()?;
        if place < self.waits.len() {
            self.waits[place] = false;
        }
        Some(place)
    }
}
