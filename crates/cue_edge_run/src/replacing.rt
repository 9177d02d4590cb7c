//! A file that is replaced whole.
use std::alloc::{AllocError, Global};
use std::fs::{self, File, Files, OpenOptions};
use std::io::{self, ErrorKind, Write};

/// A file, and the one beside it that takes its place whole.
#[derive(Drop)]
pub struct Replaced<'a> {
    path: &'a str,
    beside: String,
}

// Makes the file anew: a link or a pipe that stands there is removed, and never followed or opened.
fn make_anew<R: Files<File = File> + AllocGlobal>(
    rt: &R,
    path: &str,
    bytes: &[u8],
) -> io::Result<()> {
    match fs::remove_file(rt, path) {
        Ok(()) => {}
        Err(why) if why.kind() == ErrorKind::NotFound => {}
        Err(why) => return Err(why),
    }
    let mut options = OpenOptions::new();
    let _ = options.write(true);
    let _ = options.create_new(true);
    let mut file = options.open(rt, path)?;
    file.write_all(bytes)
}

impl<'a> Replaced<'a> {
    /// The file of this path.
    pub fn new(alloc: Global, path: &'a str) -> Result<Replaced<'a>, AllocError> {
        let beside = format!(in alloc; "{path}.new")?;
        Ok(Replaced { path, beside })
    }

    /// Has it hold these bytes, and no others.
    pub fn replace<R: Files<File = File> + AllocGlobal>(
        &self,
        rt: &R,
        bytes: &[u8],
    ) -> io::Result<()> {
        make_anew(rt, self.beside.as_str(), bytes)?;
        fs::rename(rt, self.beside.as_str(), self.path)
    }
}
