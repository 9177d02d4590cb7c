//! How a show file is loaded.
ghost use Rattle.std.specs.Prelude.{◌≡◌};
ghost use Rattle.cue_loading.specs.Steps.{goes_on};

/// What becomes of what is in the store already.
#[derive(Clone, Copy, Debug, PartialEq, Eq)]
pub enum Manner {
    /// All of it stays as it is: what the file has and the store has not is added.
    Adds,
    /// What differs is replaced, and the stack gets the order of the file. What the file does not have stays.
    Replaces,
    /// The same, and what the file does not have is removed.
    IsExact,
}

impl Manner {
    /// Whether a load goes on, if what the store had was kept or could not be: nothing is taken out of a store of which
    /// nobody has a copy.
    pub fn goes_on(self, is_kept: bool) -> bool
        ensures { result ≡ goes_on self is_kept }
    {
        match self {
            Manner::Adds => true,
            Manner::Replaces | Manner::IsExact => is_kept,
        }
    }
}
