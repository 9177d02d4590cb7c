//! Cuts the bytes of a log into lines, as they come.
ghost use Rattle.std.specs.Prelude.{◌≡◌, ◌+◌, ◌<◌, ◌≤◌, ◌==◌, ◌++◌, ◌&&◌, if◌then◌else◌, [], None, OnOk, Some};
ghost use Rattle.std.specs.Prelude.{false, length, not, true};
ghost use Rattle.std.specs.Option.{option_map};

use std::alloc::{AllocError, Global};

/// The most bytes of a line that are kept. No line of the log is as long: what is longer is none.
pub const MAX_LINE: usize = 8_192;

/// The end of what came, which may be the front of a line.
#[derive(Drop)]
pub struct Cutter {
    front: Vec<u8>,
    // Whether bytes of this line were dropped.
    is_long: bool,
}

impl Cutter {
    /// Nothing came yet.
    pub fn new(alloc: Global) -> Cutter
        ensures none { result.front.items ≡ [] }
        ensures whole { result.is_long ≡ false }
    {
        Cutter {
            front: Vec::new(alloc),
            is_long: false,
        }
    }

    /// Puts a piece after what is there. A line that gets longer than a line may be is none from then on.
    pub fn push(&mut self, piece: &[u8]) -> Result<(), AllocError>
        ensures kept { OnOk result (length self.old.front.items + length piece.now ≤ MAX_LINE →
            self.new.front.items ≡ self.old.front.items ++ piece.now) }
        ensures whole { OnOk result (length self.old.front.items + length piece.now ≤ MAX_LINE →
            self.new.is_long ≡ self.old.is_long) }
        ensures long { OnOk result (MAX_LINE < length self.old.front.items + length piece.now →
            self.new.is_long ≡ true) }
    {
        let length = self.front.len().saturating_add(piece.len());
        if length > MAX_LINE {
            self.is_long = true;
            return Ok(());
        }
        self.front.extend_from_slice(piece)
    }

    /// Whether nothing is there.
    pub fn is_empty(&self) -> bool
        ensures { result ≡ ((length self.now.front.items == 0) && not self.now.is_long) }
    {
        self.front.is_empty() && !self.is_long
    }

    /// The line that is there, if it is not too long.
    pub fn line(&self) -> Option<&[u8]>
        ensures { option_map (λ x. x.now) result ≡
            (if self.now.is_long then None else Some self.now.front.items) }
    {
        if self.is_long {
            None
        } else {
            Some(&self.front)
        }
    }

    /// Begins the next line.
    pub fn clear(&mut self)
        ensures none { self.new.front.items ≡ [] }
        ensures whole { self.new.is_long ≡ false }
    {
        self.front.clear();
        self.is_long = false;
    }
}
