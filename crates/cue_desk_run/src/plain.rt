//! Files that are read again and again while the desk runs: what is no file is not opened, none is read without end.
ghost use Rattle.std.specs.Prelude.{◌≤◌, IfOk, string_len};

use std::fs::{self, File, Files};
use std::io::{self, ErrorKind, Read};

/// Opens a file to read it. A pipe that nobody writes would be waited for, and a device may have no end: what is no
/// file is not opened. Who swaps it for a pipe between the look and the opening is not seen.
pub fn open_plain<R: Files<File = File>>(rt: &R, path: &str) -> io::Result<File> {
    if !fs::metadata(rt, path)?.is_file() {
        return Err(io::Error::from(ErrorKind::InvalidInput));
    }
    File::open(rt, path)
}

/// The text of a file that has at most so many bytes. A longer one is an error, however long it is.
pub fn text_within<R: Files<File = File> + AllocGlobal>(
    rt: &R,
    path: &str,
    most: usize,
) -> io::Result<String>
    ensures { IfOk result (λ text. string_len text ≤ most) }
{
    let file = open_plain(rt, path)?;
    let mut bytes = Vec::new(rt.alloc());
    let room = u64::try_from(most).unwrap_or(u64::MAX).saturating_add(1);
    file.take(room).read_to_end(&mut bytes)?;
    if bytes.len() > most {
        return Err(io::Error::from(ErrorKind::FileTooLarge));
    }
    match String::from_utf8(bytes) {
        Ok(text) => Ok(text),
        Err(_) => Err(io::Error::from(ErrorKind::InvalidData)),
    }
}
