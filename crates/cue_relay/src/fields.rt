//! The parts of an OSC message, each read from the front of the bytes: what it is, and the bytes after it.
ghost use Rattle.std.specs.Prelude.{◌≡◌};
ghost use Rattle.std.specs.Option.{option_map};
ghost use Rattle.cue_osc.specs.Reading.{are_zeros, padded_at, text_len};
ghost use Rattle.cue_relay.specs.Claims.{int_at, lone_text, text_at};

/// Four bytes as a number.
pub fn int_in(bytes: &[u8]) -> Option<(u32, &[u8])>
    ensures { option_map (λ x. (x.0, x.1.now)) result ≡ int_at bytes.now }
{
    if bytes.len() < 4 {
        return None;
    }
    let (front, rest) = bytes.split_at(4);
    let number = u32::from_be_bytes([front[0], front[1], front[2], front[3]]);
    Some((number, rest))
}

// The number of bytes before the first null, or of all bytes if there is none.
fn text_len(bytes: &[u8]) -> usize
    ensures { result ≡ text_len bytes.now }
{
    for (i, b) in bytes.iter().enumerate() {
        if *b == 0 {
            return i;
        }
    }
    bytes.len()
}

fn are_zeros(bytes: &[u8]) -> bool
    ensures { result ≡ are_zeros bytes.now }
{
    bytes.iter().all(|b| *b == 0)
}

// So many bytes, and so many zeros after them.
#[tactic(auto, unfolding(cue_osc::specs::Reading::padded_at))]
fn padded_in(bytes: &[u8], len: usize, zeros: usize) -> Option<(&[u8], &[u8])>
    ensures { option_map (λ x. (x.0.now, x.1.now)) result ≡ padded_at len zeros bytes.now }
{
    if bytes.len() < len {
        return None;
    }
    let (content, rest) = bytes.split_at(len);
    if rest.len() < zeros {
        return None;
    }
    let (padding, rest) = rest.split_at(zeros);
    if !are_zeros(padding) {
        return None;
    }
    Some((content, rest))
}

/// An OSC-string.
pub fn text_in(bytes: &[u8]) -> Option<(&[u8], &[u8])>
    ensures { option_map (λ x. (x.0.now, x.1.now)) result ≡ text_at bytes.now }
{
    let len = text_len(bytes);
    padded_in(bytes, len, 4 - len % 4)
}

/// An OSC-string, and nothing after it.
#[tactic(auto, unfolding(crate::specs::Claims::lone_text))]
pub fn lone_text_in(bytes: &[u8]) -> Option<&[u8]>
    ensures { option_map (λ x. x.now) result ≡ lone_text bytes.now }
{
    let (text, rest) = text_in(bytes)?;
    if rest.is_empty() { Some(text) } else { None }
}
