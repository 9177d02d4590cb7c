//! A wire in memory, for tests and for scripts: it reports all that was handed to it, and can be made to refuse.
ghost use Rattle.std.specs.Prelude.{◌≡◌, ◌-◌, [], ◌∷◌, Some, None, is_err, nat_eq, true, IsSome, MatchOption, OnOk};
ghost use Rattle.cue_engine.specs.Told.{sents_view, told_by, refuse_in_of, IsAsPlanned};
ghost use Rattle.cue_engine.specs.Wires.{Grew, handed_as};

use crate::wire::{Wire, WireFault};
use std::alloc::{AllocError, Global};

/// A datagram that was handed to a wire in memory.
#[derive(Debug, Drop)]
pub struct Sent {
    /// The port that it was for.
    pub to: u16,
    /// Its bytes.
    pub bytes: Vec<u8>,
    /// Whether the send was refused.
    pub refused: bool,
}

/// A wire in memory. It reports all that was handed to it until it finds no memory for a datagram: that send is
/// refused, and it reports nothing from then on.
#[derive(Drop)]
pub struct MemWire {
    alloc: Global,
    sent: Vec<Sent>,
    tells: bool,
    refuse_in: u64,
}

impl MemWire {
    /// A wire that reports, to which nothing was handed and which refuses nothing. It takes its memory from this
    /// allocator.
    pub fn new(alloc: Global) -> MemWire
        ensures told { told_by result ≡ Some [] }
        ensures plan { refuse_in_of result ≡ 0 }
    {
        MemWire {
            alloc,
            sent: Vec::new(alloc),
            tells: true,
            refuse_in: 0,
        }
    }

    /// Lets the k-th send from now be refused, in place of the one that an earlier `refuse` named. With `k = 0` none
    /// is refused.
    pub fn refuse(&mut self, k: u64)
        ensures plan { refuse_in_of self.new ≡ k }
        ensures told { told_by self.new ≡ told_by self.old }
    {
        self.refuse_in = k;
    }

    /// All that was handed over, in order, each with whether it was refused; None from the first on for which there
    /// was no memory.
    pub fn sent(&self) -> Option<&[Sent]>
        ensures { MatchOption result (told_by self.now ≡ None) (λ sent. told_by self.now ≡ Some (sents_view sent.now)) }
    {
        if self.tells { Some(&self.sent) } else { None }
    }

    /// Forgets what was handed over so far: it reports what comes from then on, if it reports at all. Which send is
    /// refused stays.
    pub fn clear(&mut self)
        ensures told { IsSome (told_by self.old) → told_by self.new ≡ Some [] }
        ensures silent { told_by self.old ≡ None → told_by self.new ≡ None }
        ensures plan { refuse_in_of self.new ≡ refuse_in_of self.old }
    {
        self.sent.clear();
    }

    // Keeps what was handed over, if the wire reports and there is memory for it.
    fn keep(&mut self, to: u16, bytes: &[u8], refused: bool) -> Result<(), AllocError>
        ensures kept { OnOk result (Grew (told_by self.old) (handed_as ((to, bytes.now) ∷ []) (refused ∷ []))
            (told_by self.new)) }
        ensures tells { self.new.tells ≡ self.old.tells }
        ensures plan { self.new.refuse_in ≡ self.old.refuse_in }
    {
        if !self.tells {
            return Ok(());
        }
        let bytes = Vec::from_slice(self.alloc, bytes)?;
        self.sent.push(Sent { to, bytes, refused })?;
        Ok(())
    }
}

impl Wire for MemWire {
    ghost told = { told_by };

    fn send(&mut self, to: u16, bytes: &[u8]) -> Result<(), WireFault>
        ensures told { Grew (told_by self.old) (handed_as ((to, bytes.now) ∷ []) (is_err result ∷ []))
            (told_by self.new) }
        ensures refused { IsAsPlanned (refuse_in_of self.old) (is_err result) (told_by self.new) }
        ensures counted { refuse_in_of self.new ≡ refuse_in_of self.old - 1 }
        // If there is no memory for the datagram the send is refused.
        ensures lost { IsSome (told_by self.old) → told_by self.new ≡ None → is_err result ≡ true }
    {
        let refused = self.refuse_in == 1;
        self.refuse_in = self.refuse_in.saturating_sub(1);
        if self.keep(to, bytes, refused).is_err() {
            self.tells = false;
            return Err(WireFault);
        }
        if refused { Err(WireFault) } else { Ok(()) }
    }
}
