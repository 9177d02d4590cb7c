//! What the definitions of this crate come to. Each contract is a theorem; there is nothing to run.
ghost use Rattle.std.specs.Prelude.{◌≡◌};
ghost use Rattle.cue_script.specs.declared.entry.TheConstants.{MAX_SCRIPT};

/// The longest script has 1,048,576 bytes.
pub fn limits()
    ensures { MAX_SCRIPT ≡ 1048576 }
{}
