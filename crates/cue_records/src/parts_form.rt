//! The two forms in which the parts of a cue are encoded.
ghost use Rattle.std.specs.Prelude.{◌≡◌};
ghost use Rattle.cue_records.specs.Fields.{are_required, form_for};

use cue_show::Parts;

/// How the parts of a cue are encoded. An encoding of a state in version 1 has plain parts, one in version 2 has parts
/// with flags.
#[derive(Clone, Copy, Drop)]
pub enum PartsForm {
    /// Without a flag: each part is required.
    Plain,
    /// With a flag, which says whether the part is optional.
    Flagged,
}

impl PartsForm {
    /// The plain form if each part is required, and the one with flags otherwise.
    pub(crate) fn of_parts(parts: &Parts) -> PartsForm
        ensures { result ≡ form_for parts.now }
    {
        if are_required(parts) {
            PartsForm::Plain
        } else {
            PartsForm::Flagged
        }
    }
}

/// Whether each of the parts is required.
pub(crate) fn are_required(parts: &Parts) -> bool
    ensures { result ≡ are_required parts.now }
{
    parts.as_slice().iter().all(|part| !part.optional)
}
