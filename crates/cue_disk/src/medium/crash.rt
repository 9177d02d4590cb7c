// What a crash makes of a medium: one pass over its bytes, which looks at the writes since the last sync for each.
ghost use Rattle.std.specs.Prelude.{◌≡◌, ◌≤◌, ◌<◌, ℕ, length, slice_index, IfOk};
ghost use Rattle.cue_disk.specs.Crash.{IsCrashed, crashed_byte, may_change};
ghost use Rattle.cue_disk.specs.Medium.{medium_held, is_touched};

use crate::medium::{Change, Medium};
use std::alloc::AllocError;

impl Medium {
    /// The bytes that a crash leaves, of the synced length and `extra`, with `junk` in those that it may change.
    pub(crate) fn crashed(&self, extra: u64, junk: &[u8]) -> Result<Vec<u8>, AllocError>
        ensures { IfOk result (λ image. IsCrashed (medium_held self.now) extra junk.now image.items) }
    {
        let more = u64::min(extra, (self.bytes.len() - self.synced) as u64) as usize;
        let mut image = Vec::from_slice(self.alloc, &self.bytes[..self.synced + more])?;
        self.scramble(junk, &mut image);
        Ok(image)
    }

    // Makes the bytes of an image, as they are now, what the crash leaves of them.
    fn scramble(&self, junk: &[u8], image: &mut [u8])
        requires within { length image.old ≤ length (medium_held self.now).bytes }
        requires present { (i : ℕ) → i < length image.old
            → slice_index image.old i ≡ slice_index (medium_held self.now).bytes i }
        ensures { (i : ℕ) → i < length image.new → slice_index image.new i
            ≡ crashed_byte (medium_held self.now) junk.now i }
    {
        let mut changed = 0;
        for i in 0..image.len() {
            if self.may_change(i) {
                if changed < junk.len() {
                    image[i] = junk[changed];
                }
                changed += 1;
            }
        }
    }

    // Whether a crash may change this byte.
    fn may_change(&self, i: usize) -> bool
        requires { i < length (medium_held self.now).bytes }
        ensures { result ≡ may_change (medium_held self.now) i }
    {
        i >= self.synced || is_touched(&self.past[self.synced_at..], i)
    }
}

// Whether one of these changes is a write that was asked to write this byte.
fn is_touched(changes: &[Change], i: usize) -> bool
    ensures { result ≡ is_touched changes.now i }
{
    changes.iter().any(|change| change.touches(i))
}
