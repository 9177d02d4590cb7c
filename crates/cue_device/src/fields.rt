//! The parts of an OSC message, each read from the front of the bytes: what it is, and the bytes after it.
ghost use Rattle.std.specs.Prelude.{◌≡◌, ◌≢◌, ◌++◌, ℕ, List, MatchOption, option_map};
ghost use Rattle.std.specs.Int.{w32};
ghost use Rattle.cue_osc.specs.Reading.{are_zeros, blob_at, number_at, padded_at, string_at, text_len};
ghost use Rattle.cue_device.specs.Datagrams.{Finds};

// What stands after this beginning.
pub(crate) fn after<'a>(bytes: &'a [u8], head: &[u8]) -> Option<&'a [u8]>
    ensures { MatchOption result ((rest : List ℕ) → bytes.now ≢ head.now ++ rest)
        (λ rest. bytes.now ≡ head.now ++ rest.now) }
{
    bytes.strip_prefix(head)
}

// Four bytes as a number.
pub(crate) fn int_at(bytes: &[u8]) -> Option<(u32, &[u8])>
    ensures { Finds (λ x. (x.0, x.1.now)) result (number_at w32 bytes.now) }
{
    if bytes.len() < 4 {
        return None;
    }
    let (front, rest) = bytes.split_at(4);
    let number = u32::from_be_bytes([front[0], front[1], front[2], front[3]]);
    Some((number, rest))
}

// An OSC-string.
#[tactic(auto, unfolding(cue_osc::specs::Reading::string_at))]
pub(crate) fn string_at(bytes: &[u8]) -> Option<(&[u8], &[u8])>
    ensures { Finds (λ x. (x.0.now, x.1.now)) result (string_at bytes.now) }
{
    let len = text_len(bytes);
    padded(bytes, len, 4 - len % 4)
}

// An OSC-blob of at most so many bytes.
#[tactic(auto, unfolding(cue_osc::specs::Reading::blob_at))]
pub(crate) fn blob_at(bytes: &[u8]) -> Option<(&[u8], &[u8])>
    ensures { Finds (λ x. (x.0.now, x.1.now)) result (blob_at bytes.now) }
{
    let (count, rest) = int_at(bytes)?;
    if count >= 1 << 31 {
        return None;
    }
    let len = count as usize;
    padded(rest, len, (4 - len % 4) % 4)
}

// The number of bytes before the first null, or of all bytes if there is none.
fn text_len(bytes: &[u8]) -> usize
    ensures { result ≡ text_len bytes.now }
{
    for (i, b) in bytes.iter().enumerate() {
        if *b == 0 {
            return i;
        }
    }
    bytes.len()
}

// So many bytes, and so many zeros after them.
#[tactic(auto, unfolding(cue_osc::specs::Reading::padded_at))]
fn padded(bytes: &[u8], len: usize, zeros: usize) -> Option<(&[u8], &[u8])>
    ensures { option_map (λ x. (x.0.now, x.1.now)) result ≡ padded_at len zeros bytes.now }
{
    if bytes.len() < len {
        return None;
    }
    let (content, rest) = bytes.split_at(len);
    if rest.len() < zeros {
        return None;
    }
    let (padding, rest) = rest.split_at(zeros);
    if !are_zeros(padding) {
        return None;
    }
    Some((content, rest))
}

fn are_zeros(bytes: &[u8]) -> bool
    ensures { result ≡ are_zeros bytes.now }
{
    bytes.iter().all(|b| *b == 0)
}
