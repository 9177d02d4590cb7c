//! Whether a file stands in memory, by what the system says of its mounts.
use std::alloc::{AllocError, Global};
use std::fs::{self, File, Files};
use std::os::unix::fs::MetadataExt;

/// What the system says of the mounts of this process, a line for each.
const MOUNTS: &str = "/proc/self/mountinfo";

// The folder of a file.
fn folder_of(path: &str) -> &str {
    match path.rsplit_once('/') {
        Some(("", _)) => "/",
        Some((folder, _)) => folder,
        None => ".",
    }
}

// The number of a disk, as a line of the mounts has it.
fn disk_words(alloc: Global, disk: u64) -> Result<String, AllocError> {
    let major = ((disk >> 8) & 0xfff) | ((disk >> 32) & 0xffff_f000);
    let minor = (disk & 0xff) | ((disk >> 12) & 0xffff_ff00);
    format!(in alloc; "{major}:{minor}")
}

// Whether files of this type are in memory alone.
fn is_memory(kind: &str) -> bool {
    matches!(kind, "tmpfs" | "ramfs" | "devtmpfs")
}

// Whether a line says of this disk that it is memory. Its third word is the disk, and the type stands after a dash.
fn says_memory(line: &str, disk: &str) -> bool {
    let mut words = line.split_whitespace();
    if words.nth(2) != Some(disk) {
        return false;
    }
    match words.skip_while(|word| *word != "-").nth(1) {
        Some(kind) => is_memory(kind),
        None => false,
    }
}

// Whether these mounts say of this disk that it is memory.
fn are_of_memory(mounts: &str, disk: &str) -> bool {
    mounts.lines().any(|line| says_memory(line, disk))
}

/// Whether the file with this path is, or would be, in memory alone, as far as the system says so.
pub fn is_in_memory<R: Files<File = File> + AllocGlobal>(rt: &R, path: &str) -> bool {
    let Ok(metadata) = fs::metadata(rt, folder_of(path)) else {
        return false;
    };
    let Ok(mounts) = fs::read_to_string(rt, MOUNTS) else {
        return false;
    };
    match disk_words(rt.alloc(), metadata.dev()) {
        Ok(disk) => are_of_memory(mounts.as_str(), disk.as_str()),
        Err(_) => false,
    }
}
