//! Bytes without wildcards.

ghost use Rattle.std.specs.Prelude.{◌≡◌};
ghost use Rattle.cue_pattern.specs.Literal.{is_literal_byte, is_literal};

fn is_literal_byte(b: u8) -> bool
    ensures { result ≡ is_literal_byte b }
{
    !matches!(b, b'?' | b'*' | b'[' | b'{')
}

/// Whether the bytes hold no wildcard. As a pattern such an address matches itself alone, so that
/// whoever has a table looks it up, and needs no pattern.
pub fn is_literal(bytes: &[u8]) -> bool
    ensures { result ≡ is_literal bytes.now }
{
    bytes.iter().all(|b| is_literal_byte(*b))
}
