//! What can be known of the host's files before a call reads or writes them, and without a change of any.
//! No clause sees what the host does with a name.

use crate::replace::{folder_of, own_name};
use std::io::{ErrorKind, Read};
use std::os::unix::fs::MetadataExt;
use std::rt::Files;
use std::{fs, io};

// How many of a file's first bytes are looked at, at most.
const FRONT: usize = 65536;

/// Whether two names are one file: they are equal, or lead to one regular file, by links or as two names of it.
/// Where the host tells no number of a file, its name alone counts.
pub fn are_one_file<R: Files>(rt: &R, one: &str, other: &str) -> bool {
    if one == other {
        return true;
    }
    match (fs::metadata(rt, one), fs::metadata(rt, other)) {
        (Ok(one), Ok(other)) => {
            one.is_file() && one.ino() != 0 && one.ino() == other.ino() && one.dev() == other.dev()
        }
        _ => false,
    }
}

// Whether there is a folder of this name.
fn is_folder<R: Files>(rt: &R, name: &str) -> bool {
    match fs::metadata(rt, name) {
        Ok(found) => found.is_dir(),
        Err(_) => false,
    }
}

/// Whether it is plain that no file of this name can be written: it is a folder, or it would lie in none, or its links
/// lead nowhere. What is full or may not be written shows only when it is written.
pub fn has_no_place<R: Files + AllocGlobal>(rt: &R, name: &str) -> bool {
    match own_name(rt, name) {
        Ok(Some(file)) => !is_folder(rt, folder_of(file.as_path()).as_os_str()),
        Ok(None) => is_folder(rt, name),
        Err(error) => error.kind() != ErrorKind::OutOfMemory,
    }
}

// Whether an opening bracket is the first byte behind blanks and skipped lines.
fn opens_a_list(front: &[u8]) -> bool {
    let mut skips = false;
    for byte in front {
        if skips {
            skips = *byte != b'\n';
        } else if *byte == b'#' {
            skips = true;
        } else if !byte.is_ascii_whitespace() {
            return *byte == b'(';
        }
    }
    false
}

// Whether the regular file of this name begins with a list.
fn front_is_list<R: Files>(rt: &R, name: &str) -> io::Result<bool> {
    if !fs::metadata(rt, name)?.is_file() {
        return Ok(false);
    }
    let mut file = fs::open(rt, name)?;
    let mut front = [0u8; FRONT];
    let count = file.read(&mut front)?;
    Ok(opens_a_list(&front[..count]))
}

/// Whether there is a regular file of this name that begins with an opening bracket behind blanks and lines with `#`,
/// as designs and sessions do. One that can't be read doesn't.
pub fn holds_a_list<R: Files>(rt: &R, name: &str) -> bool {
    front_is_list(rt, name).unwrap_or(false)
}
