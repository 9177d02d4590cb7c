// What an area gives back of its snapshot.
ghost use Rattle.std.specs.Prelude.{◌≡◌};

use std::marker::Model;

/// The bytes of a snapshot. Contracts see the list of its bytes.
#[derive(Debug, Drop)]
pub struct Snapshot {
    bytes: Vec<u8>,
}

impl Model for Snapshot {
    ghost use Rattle.std.specs.Prelude.{List, ℕ};

    ghost Value = { List ℕ };

    ghost view = { λ snapshot. snapshot.bytes.items };
}

impl Snapshot {
    /// A snapshot of these bytes. It takes no memory.
    pub(crate) fn from_vec(bytes: Vec<u8>) -> Snapshot
        ensures { result ≡ bytes.items }
    {
        Snapshot { bytes }
    }

    /// The bytes.
    pub fn as_slice(&self) -> &[u8]
        ensures { result.now ≡ self.now }
    {
        &self.bytes
    }

    /// The bytes, for a caller who is to own them. It takes no memory.
    pub fn into_vec(self) -> Vec<u8>
        ensures { result.items ≡ self }
    {
        let Snapshot { bytes } = self;
        bytes
    }
}
