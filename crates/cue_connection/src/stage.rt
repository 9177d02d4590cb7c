//! How far a connection has come.
ghost use Rattle.std.specs.Prelude.{◌≡◌};
ghost use Rattle.cue_connection.specs.Stages as stages;

/// How far a connection has come.
#[derive(Clone, Copy, Debug, PartialEq, Eq)]
pub enum Stage {
    /// Its request is awaited.
    Asking,
    /// It has asked, and its answer is made.
    Asked,
    /// Its answer is sent.
    Hearing,
    /// Its answer is sent; what it still says is read and dropped, so that the answer arrives.
    Leaving,
    /// It is to be closed.
    Gone,
}

impl Stage {
    /// Whether the request is awaited.
    pub fn is_asking(self) -> bool
        ensures { result ≡ stages.is_asking self }
    {
        match self {
            Stage::Asking => true,
            Stage::Asked | Stage::Hearing | Stage::Leaving | Stage::Gone => false,
        }
    }

    /// Whether the connection is still there.
    pub fn is_here(self) -> bool
        ensures { result ≡ stages.is_here_at self }
    {
        match self {
            Stage::Asking | Stage::Asked | Stage::Hearing | Stage::Leaving => true,
            Stage::Gone => false,
        }
    }
}
