//! Bytes cut at a separator.

ghost use Rattle.std.specs.Prelude.{◌≡◌, ◌==◌};
ghost use Rattle.std.specs.List.{position};
ghost use Rattle.std.specs.Option.{option_copied};
ghost use Rattle.cue_pattern.specs.Steps.{CutsFirst};

fn find(separator: u8, bytes: &[u8]) -> Option<usize>
    ensures { result ≡ position (λ b. b == separator) bytes.now }
{
    bytes.iter().position(|b| *b == separator)
}

/// What stands before the first separator, and what stands after it if there is one. By it an address is cut
/// into its parts.
pub fn cut_first(separator: u8, bytes: &[u8]) -> (&[u8], Option<&[u8]>)
    ensures { CutsFirst separator bytes.now result.0.now (option_copied result.1) }
{
    match find(separator, bytes) {
        Some(at) => (&bytes[..at], Some(&bytes[at + 1..])),
        None => (bytes, None),
    }
}
